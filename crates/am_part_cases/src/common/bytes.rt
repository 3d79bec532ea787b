//! Bytes as pairs of hexadecimal digits, and as text on one line, with `\r`, `\n`, `\\` and `\x1f` (docs/CASES.md).

use crate::common::case::{Case, CaseFault};

/// Returns the byte that two hexadecimal digits spell.
fn byte(pair: &[u8]) -> Option<u8> {
    u8::from_str_radix(str::from_utf8(pair).ok()?, 16).ok()
}

impl Case {
    /// Reads the bytes that pairs of hexadecimal digits spell, in parts with ` + ` between them; `64 x 0a` stands for 64 such
    /// bytes.
    pub fn bytes(&self, text: &str) -> Vec<u8> {
        self.repeated(text, true)
    }

    /// Reads the bytes that a text spells, in such parts.
    pub fn spelled(&self, text: &str) -> Vec<u8> {
        self.repeated(text, false)
    }

    fn repeated(&self, text: &str, are_pairs: bool) -> Vec<u8> {
        let mut bytes = Vec::new(self.alloc);
        for part in text.split(" + ") {
            let (count, once) = part.split_once(" x ").unwrap_or(("1", part));
            let once = match are_pairs {
                true => self.pairs(once),
                false => self.unescaped(once),
            };
            for _ in 0..count.parse::<u64>().unwrap_or(0) {
                self.append(&mut bytes, once.as_slice());
            }
        }
        bytes
    }

    fn pairs(&self, text: &str) -> Vec<u8> {
        let mut bytes = Vec::new(self.alloc);
        if let Some(digits) = self.made(text.replace(self.alloc, " ", "")) {
            for pair in digits.as_bytes().chunks(2) {
                self.push(&mut bytes, self.or(byte(pair), 0));
            }
        }
        bytes
    }

    /// Appends bytes.
    pub fn append(&self, bytes: &mut Vec<u8>, more: &[u8]) {
        if bytes.extend_from_slice(more).is_err() {
            self.fail(CaseFault::Memory);
        }
    }

    /// Reads the bytes that a text spells.
    pub fn unescaped(&self, text: &str) -> Vec<u8> {
        let mut bytes = Vec::new(self.alloc);
        let mut is_plain = true;
        for part in text.split('\\') {
            if is_plain {
                self.append(&mut bytes, part.as_bytes());
                is_plain = false;
            } else {
                is_plain = part.is_empty();
                self.append_escape(&mut bytes, part.as_bytes());
            }
        }
        bytes
    }

    fn append_escape(&self, bytes: &mut Vec<u8>, text: &[u8]) {
        let (first, size) = match text.first() {
            None => (Some(b'\\'), 0),
            Some(b'r') => (Some(b'\r'), 1),
            Some(b'n') => (Some(b'\n'), 1),
            Some(b'x') => (byte(text.get(1..3).unwrap_or(&[])), 3),
            Some(_) => (None, 0),
        };
        self.push(bytes, self.or(first, 0));
        self.append(bytes, text.get(size..).unwrap_or(&[]));
    }

    /// Prints bytes as they are spelled.
    pub fn print_text(&self, bytes: &[u8]) {
        for byte in bytes {
            match byte {
                b'\r' => self.put("\\r"),
                b'\n' => self.put("\\n"),
                b'\\' => self.put("\\\\"),
                b' '..=b'~' => self.put(char::from(*byte)),
                _ => self.put(format_args!("\\x{byte:02x}")),
            }
        }
    }

    /// Prints bytes as they are spelled, on a line, if there are any.
    pub fn say_text(&self, bytes: &[u8]) {
        self.print_text(bytes);
        self.put(if bytes.is_empty() { "" } else { "\n" });
    }

    /// Prints bytes as pairs of hexadecimal digits after a mark, or a word if there are none.
    pub fn print_bytes(&self, mark: &str, bytes: &[u8], none: &str) {
        let mut before = mark;
        for byte in bytes {
            self.put(format_args!("{before}{byte:02x}"));
            before = " ";
        }
        self.put(if bytes.is_empty() { none } else { "" });
    }

    /// Prints bytes as pairs of hexadecimal digits on a line, or `none`; of more than 1,000 bytes, only their number.
    pub fn say_bytes(&self, bytes: &[u8]) {
        match bytes.len() {
            0..=1000 => self.print_bytes("", bytes, "none"),
            count => put!(self; count, " bytes"),
        }
        self.put("\n");
    }
}
