//! The names of classes.

ghost use Rattle.std.specs.Prelude.{◌≡◌, ◌||◌, nat_eq};
ghost use Rattle.std.specs.List.{list_any};
ghost use lib.Pointwise.{pointwise};
ghost use Rattle.am_matcher.specs.Re2Pieces.{class_names, script_names, is_one_of, is_subcategory, is_category, is_property};

/// The names of the POSIX classes.
const CLASSES: [&str; 14] = [
    "alnum", "alpha", "ascii", "blank", "cntrl", "digit", "graph", "lower", "print", "punct",
    "space", "upper", "word", "xdigit",
];

/// The names of the known scripts.
const SCRIPTS: [&str; 14] = [
    "Arabic",
    "Armenian",
    "Bengali",
    "Cyrillic",
    "Devanagari",
    "Georgian",
    "Greek",
    "Han",
    "Hangul",
    "Hebrew",
    "Hiragana",
    "Katakana",
    "Latin",
    "Thai",
];

/// Returns whether the text is this ASCII word.
fn spells(text: &[char], word: &[u8]) -> bool
    ensures { result ≡ pointwise nat_eq text.now word.now }
{
    match (text, word) {
        ([], []) => true,
        ([character, text @ ..], [byte, word @ ..]) => {
            *character as u32 == u32::from(*byte) && spells(text, word)
        }
        _ => false,
    }
}

/// Returns whether the text is one of the words.
fn is_one_of(words: &[&str], text: &[char]) -> bool
    ensures { result ≡ list_any (λ word. pointwise nat_eq text.now word.now) words.now }
{
    words.iter().any(|word| spells(text, word.as_bytes()))
}

/// Returns whether the text is the name of a POSIX class.
pub fn is_class(text: &[char]) -> bool
    ensures { result ≡ is_one_of class_names text.now }
{
    is_one_of(&CLASSES, text)
}

/// Returns whether the text is the name of a script.
fn is_script(text: &[char]) -> bool
    ensures { result ≡ is_one_of script_names text.now }
{
    is_one_of(&SCRIPTS, text)
}

/// Returns whether two letters name a general category: that of a group, and one behind it.
#[tactic(auto, unfolding(crate::specs::Re2Pieces::is_subcategory))]
fn is_subcategory(category: char, letter: char) -> bool
    ensures { result ≡ is_subcategory category letter }
{
    match category {
        'L' => matches!(letter, 'u' | 'l' | 't' | 'm' | 'o'),
        'M' => matches!(letter, 'n' | 'c' | 'e'),
        'N' => matches!(letter, 'd' | 'l' | 'o'),
        'P' => matches!(letter, 'c' | 'd' | 's' | 'e' | 'i' | 'f' | 'o'),
        'S' => matches!(letter, 'm' | 'c' | 'k' | 'o'),
        'Z' => matches!(letter, 's' | 'l' | 'p'),
        'C' => matches!(letter, 'c' | 'f' | 'o'),
        _ => false,
    }
}

/// Returns whether the text is the name of a general category.
#[tactic(auto, unfolding(crate::specs::Re2Pieces::is_category))]
fn is_category(text: &[char]) -> bool
    ensures { result ≡ is_category text.now }
{
    match text {
        [category] => matches!(category, 'L' | 'M' | 'N' | 'P' | 'S' | 'Z'),
        [category, letter] => is_subcategory(*category, *letter),
        _ => false,
    }
}

/// Returns whether the text is the name of a property.
#[tactic(auto, unfolding(crate::specs::Re2Pieces::is_property))]
pub fn is_property(text: &[char]) -> bool
    ensures { result ≡ is_property text.now }
{
    is_category(text) || is_script(text)
}
