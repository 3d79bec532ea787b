//! The forms of lines: the verb of a line and its number of words. Finding them takes no memory.

ghost use Rattle.std.specs.Prelude.{◌≡◌};
ghost use Rattle.am_schedule.specs.Words.{words_of};
ghost use Rattle.am_schedule.specs.Forms.{verb_in, form_in};

use crate::word::{word_count, word_of};

/// The verb of a line for a member.
#[derive(Clone, Copy)]
pub(crate) enum Verb {
    From,
    Post,
    Expire,
    Notified,
    Decide,
    Mutes,
    Show,
    Tick,
    Pull,
    Start,
}

/// Returns the verb after a member's name, if the line has as many words as that verb needs.
#[tactic(auto, unfolding(crate::specs::Forms::verb_in))]
pub(crate) fn verb_of(line: &str) -> Option<Verb>
    ensures { result ≡ verb_in (words_of line.now) }
{
    match (word_of(line, 3), word_count(line)) {
        ("from", 6..) => Some(Verb::From),
        ("post", 10) => Some(Verb::Post),
        ("expire", 5) => Some(Verb::Expire),
        ("notified", 9) => Some(Verb::Notified),
        ("decide", 10) => Some(Verb::Decide),
        ("mutes", 5..) => Some(Verb::Mutes),
        ("show", 4) => Some(Verb::Show),
        ("tick", 4) => Some(Verb::Tick),
        ("pull", 5) => Some(Verb::Pull),
        ("start", 4) => Some(Verb::Start),
        _ => None,
    }
}

/// The kind of a line that gives a version a label.
#[derive(Clone, Copy)]
pub(crate) enum VersionForm {
    Silence,
    Log,
}

/// The kind of a line that is neither the cluster's nor a version's.
#[derive(Clone, Copy)]
pub(crate) enum LineForm {
    At,
    Stop,
    Save,
    Lose,
    Timely,
    Frames,
}

/// The form of a line, by its first word.
#[derive(Clone, Copy)]
pub(crate) enum Form {
    Cluster,
    Version(VersionForm),
    Other(LineForm),
}

/// Returns the form of a line, if the line has as many words as that form needs.
#[tactic(auto, unfolding(crate::specs::Forms::form_in))]
pub(crate) fn form_of(line: &str) -> Option<Form>
    ensures { result ≡ form_in (words_of line.now) }
{
    match (word_of(line, 0), word_count(line)) {
        ("cluster", _) => Some(Form::Cluster),
        ("sil", 9) => Some(Form::Version(VersionForm::Silence)),
        ("nfl", 8) => Some(Form::Version(VersionForm::Log)),
        ("at", _) => Some(Form::Other(LineForm::At)),
        ("stop", 2) => Some(Form::Other(LineForm::Stop)),
        ("save", 2) => Some(Form::Other(LineForm::Save)),
        ("lose", 2) => Some(Form::Other(LineForm::Lose)),
        ("timely", 3) => Some(Form::Other(LineForm::Timely)),
        ("frames", 1) => Some(Form::Other(LineForm::Frames)),
        _ => None,
    }
}
