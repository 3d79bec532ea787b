//! Laws about answers and notices.

ghost use Rattle.std.specs.Prelude.{◌≡◌, ℕ, ◌<◌, ◌^◌, Some};
ghost use Rattle.serde_json.specs.Data.{Data};
ghost use Rattle.serde_json.specs.Written.{compact_text};
ghost use Rattle.am_silence_json.specs.Moments.{ReadsMoment};
ghost use Rattle.am_silence_json.specs.Posts.{IsObjectText};
ghost use Rattle.am_api_decisions.specs.declared.answer.DecisionReply.{DecisionReply};
ghost use Rattle.am_api_decisions.specs.Hashes.{hash_text, hash_of};
ghost use Rattle.am_api_decisions.specs.Answers.{answer_data};
ghost use Rattle.am_api_decisions.specs.Notices.{IsNotice};
ghost use Rattle.am_api_decisions.specs.Sound.{IsAnswer, IsToNotify, notice_from};

/// States that the text of a hash is read as that hash.
pub fn a_written_hash_is_read()
    ensures { (hash : ℕ) → hash < 2 ^ 64 → hash_of (hash_text hash) ≡ Some hash }
{}

/// States that what [`write_answer`](crate::write_answer) writes of an answer is the text of its value.
pub fn a_written_answer_is_read()
    ensures { (a : DecisionReply) → IsAnswer a → IsObjectText (compact_text (answer_data a)) (answer_data a) }
{}

/// States that what [`write_answer`](crate::write_answer) writes of an answer to notify is read as the notice that says the same,
/// of a decision at the moment that the answer's text spells.
pub fn a_written_answer_is_a_notice()
    // PROMISE: An answer that says to notify is read back as the notice that says the same.
    ensures { (a : DecisionReply) (d : Data) (m : ℕ) → IsAnswer a → IsToNotify a → ReadsMoment a.decided_at m →
        IsObjectText (compact_text (answer_data a)) d → IsNotice d (notice_from a m) }
{}
