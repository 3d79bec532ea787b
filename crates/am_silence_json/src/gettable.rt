//! Silences as API v2 shows them.

ghost use Rattle.std.specs.Prelude.{◌≡◌, ℕ, [], ◌∷◌, List, OnOk, map, codes};
ghost use Rattle.json.specs.Token.{key, string};
ghost use Rattle.serde_json.specs.Data.{Data, array};
ghost use Rattle.serde_json.specs.View.{items_of};
ghost use Rattle.am_silence_json.specs.Written.{WritesMoment};
ghost use Rattle.am_silence_json.specs.Gettables.{is_equal, matcher_data, state_text, status_data, IsGettable, AreGettable, posted_data};
ghost use Rattle.am_silence_json.specs.Tokens.{Adds, data_tokens, row_tokens};

use crate::moments::write_moment;
use crate::tokens::{add, add_text, add_truth};
use am_silence::{MatcherIter, MatcherKind, MeshSilence, State};
use am_version_order::{Moment, Version};
use json::{Token, Writer};
use std::alloc::AllocError;

/// Returns whether the label has to match.
fn is_equal(kind: MatcherKind) -> bool
    ensures { result ≡ is_equal kind }
{
    matches!(kind, MatcherKind::Equal | MatcherKind::Regexp)
}

/// Returns the name of a state.
fn state_text(state: State) -> &'static str
    ensures { result.now ≡ state_text state }
{
    match state {
        State::Pending => "pending",
        State::Active => "active",
        State::Expired => "expired",
    }
}

/// Adds a matcher.
fn add_matcher(
    out: &mut Writer,
    kind: MatcherKind,
    name: &str,
    pattern: &str,
) -> Result<(), AllocError>
    ensures { OnOk result (Adds out.old out.new
        (data_tokens (matcher_data (record { kind = kind; name = name.now; pattern = pattern.now })))) }
{
    add(out, Token::BeginObject)?;
    add_truth(out, "isEqual", is_equal(kind))?;
    add_truth(out, "isRegex", kind.is_regexp())?;
    add_text(out, "name", name)?;
    add_text(out, "value", pattern)?;
    add(out, Token::EndObject)?;
    Ok(())
}

/// Adds matchers, without brackets.
fn add_each_matcher(out: &mut Writer, matchers: MatcherIter<'_>) -> Result<(), AllocError>
    ensures { OnOk result (Adds out.old out.new (row_tokens (map matcher_data matchers.entry))) }
{
    for matcher in matchers {
        add_matcher(out, matcher.kind(), matcher.name(), matcher.pattern())?;
    }
    Ok(())
}

/// Adds the member with the list of matchers.
fn add_matchers(out: &mut Writer, matchers: MatcherIter<'_>) -> Result<(), AllocError>
    ensures { OnOk result (Adds out.old out.new
        (key (codes "matchers") ∷ data_tokens (array (items_of (map matcher_data matchers.entry))))) }
{
    add(out, Token::Key("matchers"))?;
    add(out, Token::BeginArray)?;
    add_each_matcher(out, matchers)?;
    add(out, Token::EndArray)?;
    Ok(())
}

/// Adds the member with the state.
fn add_status(out: &mut Writer, state: State) -> Result<(), AllocError>
    ensures { OnOk result (Adds out.old out.new (key (codes "status") ∷ data_tokens (status_data state))) }
{
    add(out, Token::Key("status"))?;
    add(out, Token::BeginObject)?;
    add_text(out, "state", state_text(state))?;
    add(out, Token::EndObject)?;
    Ok(())
}

/// Adds a member whose value is a moment.
fn add_moment(out: &mut Writer, name: &str, moment: Moment) -> Result<(), AllocError>
    ensures { OnOk result ((text : List ℕ) × WritesMoment moment text
        × Adds out.old out.new (key name.now ∷ string text ∷ [])) }
{
    let text = write_moment(moment);
    add_text(out, name, text.as_str())?;
    Ok(())
}

/// Adds the silence of a version in a state.
///
/// # Errors
///
/// Returns [`AllocError`] if memory runs out. A part of the silence may then remain.
pub fn add_silence(out: &mut Writer, version: &MeshSilence, state: State) -> Result<(), AllocError>
    ensures { OnOk result ((d : Data) × IsGettable version.now.silence state d × Adds out.old out.new (data_tokens d)) }
{
    add(out, Token::BeginObject)?;
    add_text(out, "comment", version.comment())?;
    add_text(out, "createdBy", version.created_by())?;
    add_moment(out, "endsAt", version.ends_at())?;
    add_text(out, "id", version.key().as_str())?;
    add_matchers(out, version.matchers())?;
    add_moment(out, "startsAt", version.starts_at())?;
    add_status(out, state)?;
    add_moment(out, "updatedAt", version.updated_at())?;
    add(out, Token::EndObject)?;
    Ok(())
}

/// Adds silences, without brackets.
pub fn add_each_silence(out: &mut Writer, rows: &[(MeshSilence, State)]) -> Result<(), AllocError>
    ensures { OnOk result ((ds : List Data) × AreGettable rows.now ds × Adds out.old out.new (row_tokens ds)) }
{
    for (version, state) in rows {
        add_silence(out, version, *state)?;
    }
    Ok(())
}

/// Adds the reply to a post.
pub fn add_posted(out: &mut Writer, id: &str) -> Result<(), AllocError>
    ensures { OnOk result (Adds out.old out.new (data_tokens (posted_data id.now))) }
{
    add(out, Token::BeginObject)?;
    add_text(out, "silenceID", id)?;
    add(out, Token::EndObject)?;
    Ok(())
}
