//! The lengths of fields before they are written. Computing them allocates nothing, and every length of at least
//! [`u64::MAX`] is given as [`u64::MAX`].

ghost use Rattle.std.specs.Prelude.{◌≡◌, ℕ, List, ◌<◌, ◌≤◌, ◌^◌, length};
ghost use Rattle.std.specs.List.{flat_map};
ghost use Rattle.am_wire.specs.Sizes.{counted};
ghost use Rattle.am_wire.specs.Varint.{shortest};
ghost use Rattle.am_wire.specs.Writing.{writes_number, writes_delimited, writes_text, writes_numbers};

use crate::message::Message;

/// Returns the length of a number's shortest spelling.
pub fn varint_size(value: u64) -> u64
    ensures size { result ≡ length (shortest value) }
    ensures most { result ≤ 10 }
{
    if value < 128 {
        return 1;
    }
    u64::from(63 - value.leading_zeros()) / 7 + 1
}

/// Returns the length of a number as a field.
pub fn number_size(number: u32, value: u64) -> u64
    requires { number < 2 ^ 29 }
    ensures size { result ≡ length (writes_number number value) }
    ensures most { result ≤ 20 }
{
    if value == 0 {
        return 0;
    }
    varint_size(u64::from(number) * 8) + varint_size(value)
}

/// Returns the length of `size` bytes as a field.
pub fn delimited_size(number: u32, size: u64) -> u64
    requires { number < 2 ^ 29 }
    ensures { (bytes : List ℕ) → size ≡ counted (length bytes) → result ≡ counted (length (writes_delimited number bytes)) }
{
    let front = varint_size(u64::from(number) * 8 + 2) + varint_size(size);
    front.saturating_add(size)
}

/// Returns the length of bytes as a field, which is left out if there are none.
pub fn bytes_size(number: u32, bytes: &[u8]) -> u64
    requires { number < 2 ^ 29 }
    ensures { result ≡ counted (length (writes_text number bytes.now)) }
{
    if bytes.is_empty() {
        return 0;
    }
    delimited_size(number, bytes.len() as u64)
}

/// Returns the length of a text as a field, which is left out if it is empty.
pub fn text_size(number: u32, text: &str) -> u64
    requires { number < 2 ^ 29 }
    ensures { result ≡ counted (length (writes_text number text.now)) }
{
    bytes_size(number, text.as_bytes())
}

/// Returns the length of a message as a field.
pub fn message_size<M: Message>(number: u32, message: &M) -> u64
    requires { number < 2 ^ 29 }
    ensures { result ≡ counted (length (writes_delimited number (M.writes message.now))) }
{
    delimited_size(number, message.size())
}

/// Returns the length of numbers packed in one field, which is left out if there are none.
pub fn numbers_size(number: u32, numbers: &[u64]) -> u64
    requires { number < 2 ^ 29 }
    ensures { result ≡ counted (length (writes_numbers number numbers.now)) }
{
    if numbers.is_empty() {
        return 0;
    }
    delimited_size(number, varints_size(numbers))
}

/// Returns the length of numbers spelled one after another.
pub fn varints_size(numbers: &[u64]) -> u64
    ensures { result ≡ counted (length (flat_map shortest numbers.now)) }
{
    let mut size: u64 = 0;
    for number in numbers {
        size = size.saturating_add(varint_size(*number));
    }
    size
}
