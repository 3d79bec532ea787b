//! Laws of the lines of JSON.

ghost use Rattle.std.specs.Prelude.{◌≡◌, ℕ, Bool, List};
ghost use Rattle.am_report.specs.Sources.{Source};
ghost use Rattle.am_report.specs.declared.compared.Compared.{Compared};
ghost use Rattle.am_report.specs.Json.Written.{IsLine};
ghost use Rattle.am_report.specs.Less.{less_word};

use crate::json_lines::values::InJson;

/// States that the line of all differences of sources is one text.
pub fn a_line_is_one_text<V: InJson>()
    ensures { (sources : List (Source V)) (compared : Compared) (now : ℕ) (found other_found : Bool) (line other : List ℕ) →
        IsLine V.seen V.Key.cmp V.key_data V.named (V.value now) (less_word V.seen V.unknown_of V.known_of) compared now sources found line →
        IsLine V.seen V.Key.cmp V.key_data V.named (V.value now) (less_word V.seen V.unknown_of V.known_of) compared now sources other_found other →
        (found ≡ other_found) × (line ≡ other) }
{}
