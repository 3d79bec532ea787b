//! Laws of words.

ghost use Rattle.std.specs.Prelude.{◌≡◌, ℕ, List};
ghost use Rattle.am_report.specs.WordLaws.{AreBytes, AreGlyphs, HasNoComma};
ghost use Rattle.am_report.specs.Words.{listed_word_of, text_of_word, word_of};

/// States that a word is read as its text, in a list too; so no two texts have one word.
pub fn a_word_is_read_in_one_way()
    // PROMISE: A word on a line stands for one text.
    ensures read { (text : List ℕ) → AreBytes text → text_of_word (word_of text) ≡ text }
    ensures listed { (text : List ℕ) → AreBytes text → text_of_word (listed_word_of text) ≡ text }
    ensures own { (text other : List ℕ) → AreBytes text → AreBytes other → word_of text ≡ word_of other → text ≡ other }
    ensures own_in_list { (text other : List ℕ) → AreBytes text → AreBytes other → listed_word_of text ≡ listed_word_of other →
        text ≡ other }
{}

/// States that a word has no blank and no end of a line, and in a list no comma.
pub fn a_word_stays_one_word()
    ensures glyphs { (text : List ℕ) → AreGlyphs (word_of text) }
    ensures listed_glyphs { (text : List ℕ) → AreGlyphs (listed_word_of text) }
    ensures no_comma { (text : List ℕ) → HasNoComma (listed_word_of text) }
{}
