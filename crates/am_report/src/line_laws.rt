//! Laws of the differences of sources and of their lines.

ghost use Rattle.std.specs.Prelude.{◌≡◌, ℕ, Bool, List, ◌∷◌, All};
ghost use Rattle.am_silence_json.specs.Written.{WritesMoment};
ghost use Rattle.am_report.specs.Differences.{AreDifferences, Difference};
ghost use Rattle.am_report.specs.Groups.{AreRanked, IsLessBy, part_between};
ghost use Rattle.am_report.specs.Sources.{Holding, Source};
ghost use Rattle.am_report.specs.declared.compared.Compared.{Compared};
ghost use Rattle.am_report.specs.declared.format.LineFormat.{LineFormat};
ghost use Rattle.am_report.specs.Texts.{moment_text};
ghost use Rattle.am_report.specs.Ranked.{ranked};
ghost use Rattle.am_report.specs.Written.{AreLines};
ghost use Rattle.am_report.specs.Less.{less_word};

use crate::report_line::ReportLine;
use am_silence_json::moments::laws::texts_are_unique;
use am_version_order::Version;

/// States that sources have one list of differences, so that their lines are one text.
pub fn lines_are_one_text<V: ReportLine>()
    ensures list { (sources : List (Source V)) (compared : Compared) (now : ℕ) (differences others : List (Difference V.Key V)) →
        AreDifferences V.seen V.Key.cmp compared now sources differences →
        AreDifferences V.seen V.Key.cmp compared now sources others → differences ≡ others }
    ensures text { (sources : List (Source V)) (compared : Compared) (format : LineFormat) (found other_found : Bool) (lines others : List ℕ) →
        AreLines V.seen V.Key.cmp V.begins (V.told format) (V.more format) (less_word V.seen V.unknown_of V.known_of) compared format.moment sources found lines →
        AreLines V.seen V.Key.cmp V.begins (V.told format) (V.more format) (less_word V.seen V.unknown_of V.known_of) compared format.moment sources other_found others →
        (found ≡ other_found) × (lines ≡ others) }
{}

/// States that the versions in the lines are all that are held, each once, greatest first; and that each one after the first is
/// less than the first by the part that its line names.
pub fn lines_are_of_ranked_versions<V: Version>()
    ensures ranked { (holdings : List (Holding V)) → AreRanked V.seen holdings (ranked V.seen holdings) }
    ensures less { (holdings : List (Holding V)) (greatest : V) (others : List V) →
        ranked V.seen holdings ≡ greatest ∷ others →
        All (λ v. IsLessBy (part_between (V.seen v) (V.seen greatest)) (V.seen v) (V.seen greatest)) others }
{}

/// States that the text of a moment is the one that is written for it.
pub fn moments_have_one_text()
    ensures { (moment : ℕ) (text : List ℕ) → WritesMoment moment text → text ≡ moment_text moment }
{
    texts_are_unique();
}
