//! A field and its content.

ghost use Rattle.std.specs.Prelude.{◌+◌, ◌<◌, ◌^◌};
ghost use Rattle.am_wire.specs.Length.{payload_len};

/// The layout of a field's payload.
#[derive(Clone, Copy, PartialEq, Eq)]
pub enum WireType {
    /// A number in groups of seven bits.
    Varint,
    /// Eight bytes, the lowest first.
    Eight,
    /// A length, and that many bytes.
    Bytes,
    /// Four bytes, the lowest first.
    Four,
}

/// The payload behind a field's tag.
#[derive(Clone, Copy, Debug)]
pub enum Value<'a> {
    Varint(u64),
    Eight(u64),
    Four(u32),
    Bytes(&'a [u8]),
}

/// A field, and the offset of its tag in the outermost input.
#[derive(Clone, Copy)]
pub struct Field<'a> {
    pub number: u32,
    pub value: Value<'a>,
    pub at: usize,
    /// The offset of the payload's bytes.
    pub inside: usize,
    ghost in_range: { inside + payload_len value < 2 ^ 64 },
}
