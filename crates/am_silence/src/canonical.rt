//! A reader of canonical encodings of versions, as replicas write them, which leaves the parts where they are.

ghost use Rattle.std.specs.Prelude.{◌≡◌, ◌≤◌, ◌<◌, ◌^◌, All, IfSome, length};
ghost use Rattle.am_version_order.specs.Moments.{greatest};
ghost use Rattle.am_wire.specs.Offsets.{StandsAt};
ghost use Rattle.am_wire.specs.Passing.{Passes};
ghost use Rattle.am_wire.specs.Writing.{writes_delimited};
ghost use Rattle.am_silence.specs.MatcherTexts.{writes_matchers};
ghost use Rattle.am_silence.specs.Matchers.{writes_matcher, IsMatcher};
ghost use Rattle.am_silence.specs.Mesh.{bucket_of};
ghost use Rattle.am_silence.specs.Offsets.{StandsBetween, StandIn};
ghost use Rattle.am_silence.specs.Silences.{writes_silence, IsSilence};
ghost use Rattle.am_silence.specs.Canonical.{IsCanonical};

use crate::iter::{HasMatchers, MatcherIter};
use crate::matcher::{MatcherKind, MatcherRef};
use crate::offsets::{Offsets, bucket_place};
use crate::sizes::SilenceFields;
use am_version_order::Moment;
use am_wire::reading::{CanonicalReader, Offset};

/// The parts of a version, and their places in its canonical encoding.
#[derive(Drop)]
pub(crate) struct CanonicalSilence<'a> {
    pub fields: SilenceFields<'a, MatcherIter<'a>>,
    pub expires_at: Moment,
    pub places: Offsets,
}

/// Returns the version that a canonical encoding spells, or `None` if the text isn't canonical.
pub(crate) fn read_version(text: &[u8]) -> Option<CanonicalSilence<'_>>
    ensures { IfSome result (IsCanonical text.now) }
{
    let mut reader = CanonicalReader::new(text);
    let size = reader.prefix(1)?;
    let begun = reader.at();
    let (fields, places) = pass_silence(&mut reader)?;
    if !reader.has_passed(size, begun) {
        return None;
    }
    let expires_at = reader.moment(2)?;
    if !reader.is_over() {
        return None;
    }
    Some(CanonicalSilence {
        fields,
        expires_at,
        places,
    })
}

// Passes the text of a silence.
fn pass_silence<'a>(
    reader: &mut CanonicalReader<'a>,
) -> Option<(SilenceFields<'a, MatcherIter<'a>>, Offsets)>
    ensures passed { IfSome result (λ it. Passes (writes_silence it.0) reader.old reader.new) }
    ensures value { IfSome result (λ it. IsSilence it.0) }
    ensures places { IfSome result (λ it. StandIn it.0 it.1 reader.new.passed) }
{
    let id = reader.text(1)?;
    let (matchers, places) = pass_matchers(reader)?;
    let starts_at = reader.moment(3)?;
    let ends_at = reader.moment(4)?;
    let updated_at = reader.moment(5)?;
    let (created_by, author_place) = reader.placed_text(8)?;
    let (comment, comment_place) = reader.placed_text(9)?;
    let fields = SilenceFields {
        id,
        matchers,
        starts_at,
        ends_at,
        updated_at,
        created_by,
        comment,
    };
    let places = Offsets {
        matchers: places.start,
        matchers_end: places.end,
        created_by: author_place,
        comment: comment_place,
        bucket: places.bucket,
    };
    Some((fields, places))
}

/// The places between which matchers are, and the place of their bucket.
#[derive(Clone, Copy)]
struct MatcherPlaces {
    start: usize,
    end: usize,
    bucket: Offset,
}

// Passes the text of matchers.
fn pass_matchers<'a>(reader: &mut CanonicalReader<'a>) -> Option<(MatcherIter<'a>, MatcherPlaces)>
    ensures passed { IfSome result (λ it. Passes (writes_matchers it.0) reader.old reader.new) }
    ensures values { IfSome result (λ it. All IsMatcher it.0) }
    ensures between { IfSome result (λ it. StandsBetween it.1.start it.1.end (writes_matchers it.0) reader.new.passed) }
    ensures bucket { IfSome result (λ it. StandsAt (bucket_of it.0) it.1.bucket reader.new.passed) }
{
    let start = reader.at();
    let matchers = pass_all(reader)?;
    let end = reader.at();
    let bucket = bucket_place(start, &matchers);
    Some((matchers, MatcherPlaces { start, end, bucket }))
}

// Passes all matchers that follow one another.
fn pass_all<'a>(reader: &mut CanonicalReader<'a>) -> Option<MatcherIter<'a>>
    ensures passed { IfSome result (λ matchers. Passes (writes_matchers matchers) reader.old reader.new) }
    ensures values { IfSome result (All IsMatcher) }
{
    let begun = reader.at();
    while reader.goes_on(2) {
        pass_matcher(reader)?;
    }
    let text = reader.since(begun);
    Some(MatcherIter::over(text))
}

// Passes a matcher, behind its tag and its length.
#[tactic(auto, using(crate::proofs::Passed::matcher_behind))]
fn pass_matcher<'a>(reader: &mut CanonicalReader<'a>) -> Option<MatcherRef<'a>>
    ensures passed { IfSome result (λ matcher. Passes (writes_delimited 2 (writes_matcher matcher)) reader.old reader.new) }
    ensures value { IfSome result IsMatcher }
{
    let size = reader.prefix(2)?;
    let begun = reader.at();
    let matcher = pass_matcher_text(reader)?;
    if !reader.has_passed(size, begun) {
        return None;
    }
    Some(matcher)
}

// Passes the text of a matcher.
#[tactic(auto, using(crate::proofs::Passed::matcher_passed))]
fn pass_matcher_text<'a>(reader: &mut CanonicalReader<'a>) -> Option<MatcherRef<'a>>
    ensures passed { IfSome result (λ matcher. Passes (writes_matcher matcher) reader.old reader.new) }
    ensures value { IfSome result IsMatcher }
{
    let kind = reader.number(1)?;
    if kind > 3 {
        return None;
    }
    let name = reader.text(2)?;
    let pattern = reader.text(3)?;
    Some(MatcherRef::new(MatcherKind::of_number(kind), name, pattern))
}
