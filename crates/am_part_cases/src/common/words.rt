//! The words of a case: parts of a text, numbers and moments (docs/CASES.md).

use crate::common::case::Case;
use crate::common::versions::Printed;
use am_version_order::{Interval, Moment};
use am_wire::Text;

/// Returns the first word, and the text after the blank that follows it.
pub fn first(text: &str) -> (&str, &str) {
    cut(text, " ")
}

/// Returns the text before a mark and the text after it. If there is no mark, all of the text is before it.
pub fn cut<'a>(text: &'a str, mark: &str) -> (&'a str, &'a str) {
    text.split_once(mark).unwrap_or((text, ""))
}

/// Returns the word after a name in a text, or another one if the name isn't there. The name includes the blanks around it.
pub fn behind<'a>(text: &'a str, name: &str, otherwise: &'a str) -> &'a str {
    match text.split_once(name) {
        Some((_, rest)) => first(rest).0,
        None => otherwise,
    }
}

/// Returns the rest of the phrase that begins with a name, among phrases with commas between them.
pub fn phrase<'a>(phrases: &'a str, name: &str) -> &'a str {
    cut(cut(phrases, name).1, ",").0
}

fn nanos(digits: &str) -> Option<u32> {
    let mut nanos = digits.parse::<u32>().ok()?;
    for _ in digits.len()..9 {
        nanos = nanos.saturating_mul(10);
    }
    Some(nanos)
}

/// Returns the moment of a word, if it is one.
pub fn moment_of(word: &str) -> Option<Moment> {
    match word {
        "least" => Some(Moment::LEAST),
        "greatest" => Some(Moment::GREATEST),
        _ => {
            let (seconds, digits) = word.split_once('.').unwrap_or((word, "0"));
            Moment::from_parts(seconds.parse::<i64>().ok()?, nanos(digits)?)
        }
    }
}

impl Case {
    /// Reads a word with escapes; `""` is the empty text.
    pub fn value(&self, word: &str) -> Text {
        let bytes = self.unescaped(if word == "\"\"" { "" } else { word });
        self.text(str::from_utf8(bytes.as_slice()).unwrap_or("no text"))
    }

    /// Reads a word that is a whole number.
    pub fn number(&self, word: &str) -> u64 {
        self.or(word.parse::<u64>().ok(), 0)
    }

    /// Reads the numbers of a list, such as `1,2`, or `-` for none. `1..9` and `9..1` are all numbers from one to the other.
    pub fn numbers(&self, list: &str) -> Vec<u64> {
        let mut numbers = Vec::new(self.alloc);
        for word in list.split(',') {
            if word != "-" {
                self.append_numbers(&mut numbers, word);
            }
        }
        numbers
    }

    fn append_numbers(&self, numbers: &mut Vec<u64>, word: &str) {
        let (from, to) = word.split_once("..").unwrap_or((word, word));
        let (from, to) = (self.number(from), self.number(to));
        for step in 0..=from.abs_diff(to) {
            let (up, down) = (from.saturating_add(step), from.saturating_sub(step));
            self.push(numbers, if from < to { up } else { down });
        }
    }

    /// Reads the moment of a word.
    pub fn moment(&self, word: &str) -> Moment {
        self.or(moment_of(word), Moment::LEAST)
    }

    /// Reads an interval in seconds, if there is such an interval.
    pub fn seconds(&self, word: &str) -> Option<Interval> {
        self.wanted(Interval::from_seconds(self.number(word)))
    }
}

impl Printed for Moment {
    fn print(&self, case: &Case) {
        match self.parts() {
            _ if *self == Moment::LEAST => case.put("least"),
            _ if *self == Moment::GREATEST => case.put("greatest"),
            (seconds, 0) => case.put(seconds),
            (seconds, nanos) => case.put(format_args!("{seconds}.{nanos:09}")),
        }
    }
}
