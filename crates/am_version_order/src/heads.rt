//! Numbers that follow the order of texts.

ghost use Rattle.std.specs.Prelude.{◌≡◌};
ghost use Rattle.am_version_order.specs.Heads.{head_of_text};

/// The weights of a text's bytes, from the first one on: the powers of 256, down from the seventh.
const WEIGHTS: [u64; 8] = [
    1 << 56,
    1 << 48,
    1 << 40,
    1 << 32,
    1 << 24,
    1 << 16,
    1 << 8,
    1,
];

/// Returns the first eight bytes as one number, which follows the order of the texts: if the numbers of two texts differ,
/// the text with the lesser number is the lesser one. A byte of 255 ends the number.
pub fn head_of_text(bytes: &[u8]) -> u64
    ensures { result ≡ head_of_text bytes.now }
{
    let mut head = 0;
    for place in 0..bytes.len().min(WEIGHTS.len()) {
        head += bytes[place] as u64 * WEIGHTS[place];
        if bytes[place] == u8::MAX {
            return head;
        }
    }
    head
}
