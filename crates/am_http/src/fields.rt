//! The fields of a head that say where the body ends.

ghost use Rattle.std.specs.Prelude.{◌≡◌, ◌++◌, ◌∷◌, [], ℕ, List, length, map, All, IfSome, IfNone};
ghost use Rattle.std.specs.Str.Parse.{digits_value};
ghost use Rattle.httparse.specs.Spans.{IsHeaderWithin, header_bytes};
ghost use Rattle.am_http.specs.Heads.{values_of};
ghost use Rattle.am_http.specs.Bodies.{IsLengthText, IsBodyLength, NamedIn};

use crate::cause::Cause;
use httparse::spans::HeaderSpan;

/// The maximum number of digits in a body's length.
const MOST_DIGITS: usize = 18;

/// The maximum number of bytes in a body.
pub const MOST_BODY_BYTES: usize = 1_048_576;

/// Returns the number that a value of `content-length` stands for, if it is 1 to 18 digits.
fn content_length(value: &[u8]) -> Option<u64>
    ensures number { IfSome result (λ n. IsLengthText value.now × (n ≡ digits_value 10 value.now)) }
    ensures refused { IfNone result (¬ (IsLengthText value.now)) }
{
    if value.is_empty() || value.len() > MOST_DIGITS {
        return None;
    }
    let mut number = 0u64;
    for byte in value {
        if !byte.is_ascii_digit() {
            return None;
        }
        number = number * 10 + u64::from(*byte - b'0');
    }
    Some(number)
}

/// The values of a field.
#[derive(Clone, Copy)]
pub enum Named<'a> {
    Missing,
    Once(&'a [u8]),
    Often,
}

impl<'a> Named<'a> {
    /// Returns the values with one more.
    fn and(self, value: &'a [u8]) -> Named<'a>
        ensures { (values : List (List ℕ)) → NamedIn values self.entry → NamedIn (values ++ value.now ∷ []) result }
    {
        match self {
            Named::Missing => Named::Once(value),
            _ => Named::Often,
        }
    }
}

/// Returns the values of the fields with this name, in any ASCII case.
fn field_named<'a>(head: &'a [u8], fields: &[HeaderSpan], name: &[u8]) -> Named<'a>
    requires { All (IsHeaderWithin (length head.now)) fields.now }
    ensures { NamedIn (values_of name.now (map (header_bytes head.now) fields.now)) result }
{
    let mut found = Named::Missing;
    for field in fields {
        if field.name.of(head).eq_ignore_ascii_case(name) {
            found = found.and(field.value.of(head));
        }
    }
    found
}

/// Returns the number of bytes that the body has, by the fields of the head.
pub fn body_length(head: &[u8], fields: &[HeaderSpan]) -> Result<usize, Cause>
    requires { All (IsHeaderWithin (length head.now)) fields.now }
    ensures { IsBodyLength (map (header_bytes head.now) fields.now) result }
{
    let Named::Missing = field_named(head, fields, b"transfer-encoding") else {
        return Err(Cause::TransferEncoding);
    };
    let value = match field_named(head, fields, b"content-length") {
        Named::Missing => return Ok(0),
        Named::Once(value) => value,
        Named::Often => return Err(Cause::BadContentLength),
    };
    match content_length(value) {
        None => Err(Cause::BadContentLength),
        Some(number) if number > MOST_BODY_BYTES as u64 => Err(Cause::BodyTooLarge),
        Some(number) => Ok(number as usize),
    }
}
