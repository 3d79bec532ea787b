//! The place of a silence's bucket in the text of its matchers.

ghost use Rattle.std.specs.Prelude.{◌≡◌, ◌<◌, [], None, MatchOption, IsSomeAnd};
ghost use Rattle.std.specs.List.{list_any, find};
ghost use Rattle.am_wire.specs.Offsets.{Follows};
ghost use Rattle.am_silence.specs.Kinds.{is_regexp};
ghost use Rattle.am_silence.specs.MatcherTexts.{writes_matchers};
ghost use Rattle.am_silence.specs.Matchers.{writes_matcher, wants_label};
ghost use Rattle.am_silence.specs.Mesh.{bucket_of};

use crate::iter::{HasMatchers, MatcherIter};

/// Returns the offset of the bucket in the text of these matchers: the number of bytes before its length.
pub fn bucket_offset(matchers: MatcherIter<'_>) -> Option<usize>
    ensures { MatchOption result (bucket_of matchers.entry ≡ [])
        (λ at. (0 < at) × Follows at (bucket_of matchers.entry) (writes_matchers matchers.entry)) }
{
    if has_regexp(matchers.lent()) {
        return None;
    }
    first_wanting(matchers)
}

// Returns the offset of the length of the first matcher that wants a label.
fn first_wanting(matchers: MatcherIter<'_>) -> Option<usize>
    ensures { MatchOption result (find wants_label matchers.entry ≡ None) (λ at. (0 < at) ×
        IsSomeAnd (find wants_label matchers.entry) (λ m. Follows at (writes_matcher m) (writes_matchers matchers.entry))) }
{
    let len = matchers.as_text().len();
    let mut rest = matchers;
    let mut at = 0;
    while let Some(matcher) = rest.next() {
        if matcher.wants_label() {
            return Some(at + 1);
        }
        at = len - rest.as_text().len();
    }
    None
}

// Returns whether any matcher is a regular expression.
fn has_regexp(matchers: MatcherIter<'_>) -> bool
    ensures { result ≡ list_any (λ m. is_regexp m.kind) matchers.entry }
{
    for matcher in matchers {
        if matcher.kind().is_regexp() {
            return true;
        }
    }
    false
}
