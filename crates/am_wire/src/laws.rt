//! Laws of the definitions that the readers' contracts cite: what is read is what is spelled, a spelling can be read in
//! only one way, and a fault is determined by the bytes behind the last sound item.

ghost use Rattle.std.specs.Prelude.{◌≡◌, ℕ, List, [], ◌∷◌, Bool, true, ◌+◌, ◌<◌, ◌≤◌, ◌^◌, ◌↔◌, ◌⊎◌, length, take, map};
ghost use Rattle.std.specs.Prelude.{Option, Some, None, Ok, Err, ◌++◌, All, IsTrue, slice_index, if◌then◌else◌};
ghost use Rattle.std.specs.List.{AllPass, flat_map};
ghost use Rattle.std.specs.Str.{IsUtf8};
ghost use Rattle.am_wire.specs.Limits.{most};
ghost use Rattle.am_wire.specs.declared.error.WireError.{WireError};
ghost use Rattle.am_wire.specs.declared.error.WireError.TheVariants.{Truncated, LongVarint, NotUtf8};
ghost use Rattle.am_wire.specs.declared.value.WireType.{WireType};
ghost use Rattle.am_wire.specs.Varint.{IsVarint, varint_at, shortest};
ghost use Rattle.am_wire.specs.Fields.{FieldAt, field_at, fields_of, row_at, rows_of, any};
ghost use Rattle.am_wire.specs.Grammar.{AreFields, AreRows, ArePacked, IsField, IsRow, field_fits};
ghost use Rattle.am_wire.specs.Faults.{EndsInNumber, EndsInMessage, IsNumberFault, IsFieldFault, IsRowFault};
ghost use Rattle.am_wire.specs.Faults.{AreFieldsUntil, AreRowsUntil, ArePackedUntil};
ghost use Rattle.am_wire.specs.Messages.{AreSound, IsMessage, HasFault, FailsTests, bytes_field};
ghost use Rattle.am_wire.specs.Reader as reader;
ghost use Rattle.am_wire.specs.Reading.{Table, fields_in, faults_in, text_fault, part_fault, item_fault, numbers_fault};
ghost use Rattle.am_wire.specs.Reading.{last_number, read_by, unpacked};
ghost use Rattle.am_wire.specs.SignedParts.{ArePartsOf, IsTimestampOf};
ghost use Rattle.am_wire.specs.Timestamps.{is_moment, moment, reads_moment};
ghost use Rattle.am_wire.specs.Unknown.{knows, unknown_in, AreUnknown, StaysWhole};
ghost use Rattle.am_wire.specs.Writing.{writes_rows};
ghost use Rattle.am_wire.specs.declared.unknown.Unknown.{Unknown};

use crate::message::Message;
use crate::unknown::Unknown;

/// States that what is read is a spelling, and that a spelling is read, whatever follows it. If there is none at the
/// front, the bytes are too few, or the tenth one doesn't end a number of 64 bits. The shortest spelling is a spelling.
pub fn varints_are_the_grammar()
    ensures found { (at n len : ℕ) (bytes : List ℕ) → varint_at at bytes ≡ Ok (n, len) → (len ≤ length bytes)
        × IsVarint (take len bytes) n }
    ensures read { (at n : ℕ) (text rest : List ℕ) → IsVarint text n → varint_at at (text ++ rest) ≡ Ok (n, length text) }
    ensures unique { (n m : ℕ) (text other rest more : List ℕ) → IsVarint text n → IsVarint other m →
        text ++ rest ≡ other ++ more → (n ≡ m) × (text ≡ other) }
    ensures cut { (at : ℕ) (bytes : List ℕ) → (varint_at at bytes ≡ Err (Truncated at)) ↔ ((length bytes < 10) × All (λ b. 128 ≤ b) bytes) }
    ensures long { (at : ℕ) (bytes : List ℕ) → (varint_at at bytes ≡ Err (LongVarint at))
        ↔ ((9 < length bytes) × All (λ b. 128 ≤ b) (take 9 bytes) × (2 ≤ slice_index bytes 9)) }
    ensures written { (n : ℕ) → n < 2 ^ 64 → IsVarint (shortest n) n }
    ensures shortest { (n : ℕ) (text : List ℕ) → IsVarint text n → length (shortest n) ≤ length text }
{}

/// States that bytes are read as these fields without a fault if and only if they spell them, and each number may have
/// the wire type it has there.
pub fn fields_are_the_grammar()
    ensures found { (fits : ℕ → WireType → Bool) (at : ℕ) (bytes : List ℕ) (es : List FieldAt) →
        fields_of fits at bytes ≡ map Ok es → AreFields es at bytes × AllPass (field_fits fits) es }
    ensures read { (fits : ℕ → WireType → Bool) (at : ℕ) (bytes : List ℕ) (es : List FieldAt) → AreFields es at bytes →
        AllPass (field_fits fits) es → fields_of fits at bytes ≡ map Ok es }
    ensures unique { (at : ℕ) (bytes : List ℕ) (es others : List FieldAt) → AreFields es at bytes → AreFields others at bytes →
        es ≡ others }
    ensures any_read { (at : ℕ) (bytes : List ℕ) (es : List FieldAt) → AreFields es at bytes → fields_of any at bytes ≡ map Ok es }
{}

/// States that bytes are read as these messages without a fault if and only if they are a row of them.
pub fn rows_are_the_grammar()
    ensures found { (bytes : List ℕ) (messages : List (List ℕ)) → rows_of bytes ≡ map Ok messages → AreRows messages bytes }
    ensures read { (bytes : List ℕ) (messages : List (List ℕ)) → AreRows messages bytes → rows_of bytes ≡ map Ok messages }
    ensures unique { (bytes : List ℕ) (messages others : List (List ℕ)) → AreRows messages bytes → AreRows others bytes →
        messages ≡ others }
    ensures written { (messages : List (List ℕ)) → All (λ m. length m ≤ most) messages → AreRows messages (writes_rows messages) }
{}

/// States that bytes are read as these packed numbers without a fault if and only if they spell them one after another.
pub fn packed_numbers_are_the_grammar()
    ensures found { (tag : ℕ) (bytes numbers : List ℕ) → unpacked tag bytes ≡ map Ok numbers → ArePacked numbers bytes }
    ensures read { (tag : ℕ) (bytes numbers : List ℕ) → ArePacked numbers bytes → unpacked tag bytes ≡ map Ok numbers }
    ensures unique { (bytes numbers others : List ℕ) → ArePacked numbers bytes → ArePacked others bytes → numbers ≡ others }
    ensures written { (numbers : List ℕ) → All (λ n. n < 2 ^ 64) numbers → ArePacked numbers (flat_map shortest numbers) }
{}

/// States that if no number is read, the bytes at the front determine the fault, and no number is spelled there.
pub fn varint_faults_are_the_grammar()
    ensures exact { (at : ℕ) (bytes : List ℕ) (fault : WireError) →
        (varint_at at bytes ≡ Err fault) ↔ IsNumberFault at bytes fault }
    ensures no_number { (at n : ℕ) (bytes text rest : List ℕ) (fault : WireError) →
        IsNumberFault at bytes fault → bytes ≡ text ++ rest → IsVarint text n → ⊥ }
{}

/// States that bytes are read as these fields followed by a fault if and only if they spell the fields, and the rest has
/// that fault at its front, where there is no field. All bytes are either fields, or fields followed by a fault, and in
/// only one way.
pub fn field_faults_are_the_grammar()
    ensures front { (fits : ℕ → WireType → Bool) (at len : ℕ) (bytes : List ℕ) (e : FieldAt) →
        (field_at fits at bytes ≡ Ok (e, len))
        ↔ ((len ≤ length bytes) × IsField e at (take len bytes) × (field_fits fits e ≡ true)) }
    ensures stop { (fits : ℕ → WireType → Bool) (at : ℕ) (bytes : List ℕ) (fault : WireError) →
        (field_at fits at bytes ≡ Err fault) ↔ IsFieldFault fits at bytes fault }
    ensures found { (fits : ℕ → WireType → Bool) (at : ℕ) (bytes : List ℕ) (es : List FieldAt) (fault : WireError) →
        fields_of fits at bytes ≡ map Ok es ++ Err fault ∷ [] → AreFieldsUntil fits es fault at bytes }
    ensures read { (fits : ℕ → WireType → Bool) (at : ℕ) (bytes : List ℕ) (es : List FieldAt) (fault : WireError) →
        AreFieldsUntil fits es fault at bytes → fields_of fits at bytes ≡ map Ok es ++ Err fault ∷ [] }
    ensures unique { (fits : ℕ → WireType → Bool) (at : ℕ) (bytes : List ℕ) (es others : List FieldAt) (fault other : WireError) →
        AreFieldsUntil fits es fault at bytes → AreFieldsUntil fits others other at bytes →
        (es ≡ others) × (fault ≡ other) }
    ensures apart { (fits : ℕ → WireType → Bool) (at : ℕ) (bytes : List ℕ) (es others : List FieldAt) (fault : WireError) →
        AreFields es at bytes → AllPass (field_fits fits) es → AreFieldsUntil fits others fault at bytes → ⊥ }
    ensures always { (fits : ℕ → WireType → Bool) (at : ℕ) (bytes : List ℕ) →
        (es : List FieldAt) × ((AreFields es at bytes × AllPass (field_fits fits) es)
        ⊎ ((fault : WireError) × AreFieldsUntil fits es fault at bytes)) }
    ensures no_field { (fits : ℕ → WireType → Bool) (at : ℕ) (bytes text rest : List ℕ) (e : FieldAt) (fault : WireError) →
        IsFieldFault fits at bytes fault → bytes ≡ text ++ rest → IsField e at text → field_fits fits e ≡ true → ⊥ }
{}

/// States that bytes are read as these messages followed by a fault if and only if they are a row of them, and the rest
/// has that fault at its front, where there is no message. All bytes are either the one or the other, and in only one way.
pub fn row_faults_are_the_grammar()
    ensures front { (at len : ℕ) (bytes message : List ℕ) →
        (row_at at bytes ≡ Ok (message, len)) ↔ ((len ≤ length bytes) × IsRow message at (take len bytes)) }
    ensures stop { (at : ℕ) (bytes : List ℕ) (fault : WireError) →
        (row_at at bytes ≡ Err fault) ↔ IsRowFault at bytes fault }
    ensures found { (bytes : List ℕ) (messages : List (List ℕ)) (fault : WireError) →
        rows_of bytes ≡ map Ok messages ++ Err fault ∷ [] → AreRowsUntil messages fault bytes }
    ensures read { (bytes : List ℕ) (messages : List (List ℕ)) (fault : WireError) →
        AreRowsUntil messages fault bytes → rows_of bytes ≡ map Ok messages ++ Err fault ∷ [] }
    ensures unique { (bytes : List ℕ) (messages others : List (List ℕ)) (fault other : WireError) →
        AreRowsUntil messages fault bytes → AreRowsUntil others other bytes → (messages ≡ others) × (fault ≡ other) }
    ensures apart { (bytes : List ℕ) (messages others : List (List ℕ)) (fault : WireError) →
        AreRows messages bytes → AreRowsUntil others fault bytes → ⊥ }
    ensures always { (bytes : List ℕ) →
        (messages : List (List ℕ)) × (AreRows messages bytes ⊎ ((fault : WireError) × AreRowsUntil messages fault bytes)) }
    ensures no_message { (at : ℕ) (bytes message text rest : List ℕ) (fault : WireError) →
        IsRowFault at bytes fault → bytes ≡ text ++ rest → IsRow message at text → ⊥ }
{}

/// States that what a reader of rows takes for a row, or for the beginning of one, is so by the grammar too.
pub fn readers_rows_are_the_grammar()
    ensures row { (at : ℕ) (bytes message : List ℕ) → reader.IsRow at bytes message ↔ IsRow message at bytes }
    ensures cut { (at : ℕ) (bytes : List ℕ) → reader.IsCut at bytes ↔ (EndsInNumber bytes ⊎ EndsInMessage bytes) }
{}

/// States that bytes are read as these packed numbers followed by a fault if and only if they spell the numbers, and the
/// rest has that fault at its front. The fault is reported at the field's tag.
pub fn packed_faults_are_the_grammar()
    ensures found { (tag : ℕ) (bytes numbers : List ℕ) (fault : WireError) →
        unpacked tag bytes ≡ map Ok numbers ++ Err fault ∷ [] → ArePackedUntil tag numbers fault bytes }
    ensures read { (tag : ℕ) (bytes numbers : List ℕ) (fault : WireError) →
        ArePackedUntil tag numbers fault bytes → unpacked tag bytes ≡ map Ok numbers ++ Err fault ∷ [] }
    ensures unique { (tag : ℕ) (bytes numbers others : List ℕ) (fault other : WireError) →
        ArePackedUntil tag numbers fault bytes → ArePackedUntil tag others other bytes →
        (numbers ≡ others) × (fault ≡ other) }
    ensures always { (tag : ℕ) (bytes : List ℕ) →
        (numbers : List ℕ) × (ArePacked numbers bytes ⊎ ((fault : WireError) × ArePackedUntil tag numbers fault bytes)) }
{}

/// States that a message has no fault inside if and only if its bytes are fields that fit its table, none of which has a
/// fault inside. Otherwise its first fault is that of the first such field, or that of bytes that aren't a field.
pub fn parts_are_their_fields()
    ensures sound { (table : Table) (at : ℕ) (bytes : List ℕ) (es : List FieldAt) →
        ((faults_in table at bytes ≡ None) × (fields_in table at bytes ≡ es)) ↔ AreSound table es at bytes }
    ensures fault { (table : Table) (at : ℕ) (bytes : List ℕ) (fault : WireError) →
        (faults_in table at bytes ≡ Some fault) ↔ HasFault table fault at bytes }
{}

/// States what faults a field of bytes can have inside, if its row says that it holds a text, a message that is held once,
/// one of many messages, or packed numbers.
pub fn insides_are_told()
    ensures text { (n at inside : ℕ) (bytes : List ℕ) →
        (text_fault (bytes_field n at inside bytes) ≡ None) ↔ IsUtf8 bytes }
    ensures text_fault { (n at inside : ℕ) (bytes : List ℕ) (fault : WireError) →
        (text_fault (bytes_field n at inside bytes) ≡ Some fault) ↔ ((fault ≡ NotUtf8 at) × (IsUtf8 bytes → ⊥)) }
    ensures part { (table : Table) (n at inside : ℕ) (bytes : List ℕ) →
        (part_fault table (bytes_field n at inside bytes) ≡ None)
        ↔ ((es : List FieldAt) × AreSound table es inside bytes) }
    ensures part_fault { (table : Table) (n at inside : ℕ) (bytes : List ℕ) (fault : WireError) →
        (part_fault table (bytes_field n at inside bytes) ≡ Some fault) ↔ HasFault table fault inside bytes }
    ensures item { (table : Table) (tests : ℕ → List FieldAt → Option WireError) (n at inside : ℕ) (bytes : List ℕ) →
        (item_fault table tests (bytes_field n at inside bytes) ≡ None)
        ↔ ((es : List FieldAt) × AreSound table es inside bytes × (tests at es ≡ None)) }
    ensures item_fault { (table : Table) (tests : ℕ → List FieldAt → Option WireError) (n at inside : ℕ) (bytes : List ℕ) →
        (fault : WireError) → (item_fault table tests (bytes_field n at inside bytes) ≡ Some fault)
        ↔ (HasFault table fault inside bytes ⊎ FailsTests table tests fault at inside bytes) }
    ensures numbers { (n at inside : ℕ) (bytes : List ℕ) →
        (numbers_fault (bytes_field n at inside bytes) ≡ None) ↔ ((numbers : List ℕ) × ArePacked numbers bytes) }
    ensures numbers_fault { (n at inside : ℕ) (bytes : List ℕ) (fault : WireError) →
        (numbers_fault (bytes_field n at inside bytes) ≡ Some fault)
        ↔ ((numbers : List ℕ) × ArePackedUntil at numbers fault bytes) }
{}

/// States that a message is read as v if and only if its bytes are fields that fit its table and have no fault inside, its
/// tests pass, and v is their value. It is refused only with the first fault in its bytes, or with that of a test.
pub fn messages_are_their_fields<A>()
    // PROMISE: A message has exactly the value of its fields, or their first fault.
    ensures read { (table : Table) (tests : ℕ → List FieldAt → Option WireError) (value : List FieldAt → A) →
        (place at : ℕ) (bytes : List ℕ) (v : A) →
        (read_by table tests value place at bytes ≡ Ok v) ↔ IsMessage table tests value place at bytes v }
    ensures fault { (table : Table) (tests : ℕ → List FieldAt → Option WireError) (value : List FieldAt → A) →
        (place at : ℕ) (bytes : List ℕ) (fault : WireError) →
        (read_by table tests value place at bytes ≡ Err fault)
        ↔ (HasFault table fault at bytes ⊎ FailsTests table tests fault place at bytes) }
{}

/// States that a message's unknown fields are its fields with unknown numbers, byte for byte, up to the first fault. They
/// are fields at any offset, and their unknown fields are all of them.
pub fn unknown_fields_are_the_grammar()
    ensures first { (known : List ℕ) (at : ℕ) (e : FieldAt) (text rest : List ℕ) → IsField e at text →
        unknown_in known (text ++ rest) ≡ (if knows known e.number then [] else text) ++ unknown_in known rest }
    ensures stop { (known : List ℕ) (bytes : List ℕ) (fault : WireError) →
        field_at any 0 bytes ≡ Err fault → unknown_in known bytes ≡ [] }
    ensures fields { (known : List ℕ) (at : ℕ) (bytes : List ℕ) (es : List FieldAt) → AreFields es at bytes →
        AreUnknown known (unknown_in known bytes) }
    ensures again { (known : List ℕ) (bytes : List ℕ) → AreUnknown known bytes → unknown_in known bytes ≡ bytes }
{}

/// States that dropping unknown fields drops nothing else: the same faults are found, what is read has no unknown fields,
/// and a value without unknown fields is read back from its text.
pub fn only_unknown_fields_are_dropped<M: Message>()
    ensures faults { (at : ℕ) (bytes : List ℕ) (e : WireError) →
        (M.reads Unknown.Drop at bytes ≡ Err e) ↔ (M.reads Unknown.Keep at bytes ≡ Err e) }
    ensures plain { (at : ℕ) (bytes : List ℕ) (v : M) → M.reads Unknown.Drop at bytes ≡ Ok v → M.plain v ≡ v }
    ensures whole { (unknown : Unknown) (v : M) (at : ℕ) → M.is_value v → length (M.writes v) < 2 ^ 64 →
        StaysWhole M.plain unknown v → M.reads unknown at (M.writes v) ≡ Ok v }
{}

/// States that fields are read as a moment if and only if their last seconds, a signed number of 64 bits in two's
/// complement, and their last nanos, one of 32 bits, are the parts of that moment.
pub fn moments_are_signed_parts()
    ensures tested { (es : List FieldAt) → last_number 1 es < 2 ^ 64 →
        (IsTrue (is_moment es) ↔ ArePartsOf (last_number 1 es) (last_number 2 es) (moment es)) }
    ensures only { (es : List FieldAt) (m : ℕ) → last_number 1 es < 2 ^ 64 →
        ArePartsOf (last_number 1 es) (last_number 2 es) m → moment es ≡ m }
    ensures read { (at : ℕ) (bytes : List ℕ) (m : ℕ) → (reads_moment at bytes ≡ Ok m) ↔ IsTimestampOf m at bytes }
{}
