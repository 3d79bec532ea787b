//! Laws of the texts of filters.

ghost use Rattle.std.specs.Prelude.{◌≡◌, ℕ, List};
ghost use Rattle.am_silence.specs.declared.matcher.Matcher.{Matcher};
ghost use Rattle.am_matcher.specs.Filters.{IsFilter};

/// States that the text of a filter can be read in one way only.
pub fn filter_is_read_in_one_way()
    // PROMISE: A filter has one reading.
    ensures { (bytes : List ℕ) (m other : Matcher) →
        IsFilter bytes m → IsFilter bytes other → m ≡ other }
{}
