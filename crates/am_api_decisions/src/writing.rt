//! The parts of answers, added to a JSON text that is being written.

ghost use Rattle.std.specs.Prelude.{◌≡◌, [], ◌∷◌, OnOk, codes, decimal, map};
ghost use Rattle.std.specs.List.{flat_map};
ghost use Rattle.json.specs.Token.{key, number};
ghost use Rattle.serde_json.specs.Data.{array, string};
ghost use Rattle.serde_json.specs.View.{items_of};
ghost use Rattle.am_silence_json.specs.Tokens.{Adds, data_tokens, row_tokens};
ghost use Rattle.am_api_decisions.specs.Hashes.{hash_data, hashes_data};
ghost use Rattle.am_api_decisions.specs.Answers.{label_tokens, labels_data, muted_data, answer_data, logged_data};

use crate::answer::{DecisionReply, Muted};
use crate::hashes::HashText;
use am_matcher::Label;
use am_nflog::HashIter;
use am_silence_json::tokens::{add, add_text, add_truth};
use am_wire::Text;
use json::{Token, Writer};
use std::alloc::AllocError;

/// Adds a member that is a number.
fn add_number(out: &mut Writer, name: &str, value: u64) -> Result<(), AllocError>
    ensures { OnOk result (Adds out.old out.new (key name.now ∷ number (decimal value) ∷ [])) }
{
    add(out, Token::Key(name))?;
    out.u64(value)?;
    Ok(())
}

/// Adds the member that is the number of an integration in its receiver.
fn add_index(out: &mut Writer, index: u32) -> Result<(), AllocError>
    ensures { OnOk result (Adds out.old out.new (key (codes "index") ∷ number (decimal index) ∷ [])) }
{
    add_number(out, "index", u64::from(index))?;
    Ok(())
}

/// Adds a hash.
fn add_hash(out: &mut Writer, hash: u64) -> Result<(), AllocError>
    ensures { OnOk result (Adds out.old out.new (data_tokens (hash_data hash))) }
{
    let text = HashText::new(hash);
    add(out, Token::String(text.as_str()))?;
    Ok(())
}

/// Adds hashes, without brackets.
fn add_each_hash(out: &mut Writer, hashes: HashIter<'_>) -> Result<(), AllocError>
    ensures { OnOk result (Adds out.old out.new (row_tokens (map hash_data hashes.entry))) }
{
    for hash in hashes {
        add_hash(out, hash)?;
    }
    Ok(())
}

/// Adds a member that is a list of hashes.
fn add_hashes(out: &mut Writer, name: &str, hashes: HashIter<'_>) -> Result<(), AllocError>
    ensures { OnOk result (Adds out.old out.new (key name.now ∷ data_tokens (hashes_data hashes.entry))) }
{
    add(out, Token::Key(name))?;
    add(out, Token::BeginArray)?;
    add_each_hash(out, hashes)?;
    add(out, Token::EndArray)?;
    Ok(())
}

/// Adds labels, without brackets.
fn add_each_label(out: &mut Writer, labels: &[Label]) -> Result<(), AllocError>
    ensures { OnOk result (Adds out.old out.new (flat_map label_tokens labels.now)) }
{
    for label in labels {
        add_text(out, label.name.as_str(), label.value.as_str())?;
    }
    Ok(())
}

/// Adds the labels of an alert, in their order, as an object with a member for each.
///
/// # Errors
///
/// [`AllocError`] if memory runs out. Some tokens may have been added then.
pub fn add_labels(out: &mut Writer, labels: &[Label]) -> Result<(), AllocError>
    ensures { OnOk result (Adds out.old out.new (data_tokens (labels_data labels.now))) }
{
    add(out, Token::BeginObject)?;
    add_each_label(out, labels)?;
    add(out, Token::EndObject)?;
    Ok(())
}

/// Adds the member that has the labels of a muted alert.
fn add_labels_of(out: &mut Writer, labels: &[Label]) -> Result<(), AllocError>
    ensures { OnOk result (Adds out.old out.new (key (codes "labels") ∷ data_tokens (labels_data labels.now))) }
{
    add(out, Token::Key("labels"))?;
    add_labels(out, labels)?;
    Ok(())
}

/// Adds identifiers, without brackets.
fn add_each_id(out: &mut Writer, ids: &[Text]) -> Result<(), AllocError>
    ensures { OnOk result (Adds out.old out.new (row_tokens (map string ids.now))) }
{
    for id in ids {
        add(out, Token::String(id.as_str()))?;
    }
    Ok(())
}

/// Adds the member that lists the silences that mute an alert.
fn add_ids(out: &mut Writer, ids: &[Text]) -> Result<(), AllocError>
    ensures { OnOk result (Adds out.old out.new
        (key (codes "silencedBy") ∷ data_tokens (array (items_of (map string ids.now))))) }
{
    add(out, Token::Key("silencedBy"))?;
    add(out, Token::BeginArray)?;
    add_each_id(out, ids)?;
    add(out, Token::EndArray)?;
    Ok(())
}

/// Adds a muted alert.
fn add_muted(out: &mut Writer, muted: &Muted) -> Result<(), AllocError>
    ensures { OnOk result (Adds out.old out.new (data_tokens (muted_data muted.now))) }
{
    add(out, Token::BeginObject)?;
    add_labels_of(out, muted.labels.as_slice())?;
    add_ids(out, muted.silenced_by.as_slice())?;
    add_number(out, "silencedByMore", muted.more)?;
    add(out, Token::EndObject)?;
    Ok(())
}

/// Adds muted alerts, without brackets.
fn add_each_muted(out: &mut Writer, alerts: &[Muted]) -> Result<(), AllocError>
    ensures { OnOk result (Adds out.old out.new (row_tokens (map muted_data alerts.now))) }
{
    for muted in alerts {
        add_muted(out, muted)?;
    }
    Ok(())
}

/// Adds the member that lists the muted alerts.
fn add_all_muted(out: &mut Writer, alerts: &[Muted]) -> Result<(), AllocError>
    ensures { OnOk result (Adds out.old out.new
        (key (codes "muted") ∷ data_tokens (array (items_of (map muted_data alerts.now))))) }
{
    add(out, Token::Key("muted"))?;
    add(out, Token::BeginArray)?;
    add_each_muted(out, alerts)?;
    add(out, Token::EndArray)?;
    Ok(())
}

/// Adds an answer.
pub fn add_answer(out: &mut Writer, answer: &DecisionReply) -> Result<(), AllocError>
    ensures { OnOk result (Adds out.old out.new (data_tokens (answer_data answer.now))) }
{
    add(out, Token::BeginObject)?;
    add_text(out, "decidedAt", answer.decided_at.as_str())?;
    add_hashes(out, "firing", answer.firing.iter())?;
    add_text(out, "groupKey", answer.group_key.as_str())?;
    add_index(out, answer.index)?;
    add_text(out, "integration", answer.integration.as_str())?;
    add_all_muted(out, answer.muted.as_slice())?;
    add_truth(out, "notify", answer.notify)?;
    add_text(out, "reason", answer.reason.text())?;
    add_text(out, "receiver", answer.receiver.as_str())?;
    add_number(out, "repeat", answer.repeat)?;
    add_hashes(out, "resolved", answer.resolved.iter())?;
    add_number(out, "turnSeconds", answer.turn_seconds)?;
    add(out, Token::EndObject)?;
    Ok(())
}

/// Adds the answer to a notice.
pub fn add_logged(out: &mut Writer, is_logged: bool) -> Result<(), AllocError>
    ensures { OnOk result (Adds out.old out.new (data_tokens (logged_data is_logged))) }
{
    add(out, Token::BeginObject)?;
    add_truth(out, "logged", is_logged)?;
    add(out, Token::EndObject)?;
    Ok(())
}
