//! Laws about inputs that are not read to their end, about saved inputs, and about pieces of rows.

ghost use Rattle.std.specs.Prelude.{◌≡◌, ℕ, ◌<◌, List, ◌++◌, All, length, Option, Some, None};
ghost use Rattle.am_wire.specs.declared.error.WireError.{WireError};
ghost use Rattle.am_wire.specs.declared.reader.RowFault.TheVariants.{Wire, TooLarge};
ghost use Rattle.am_wire.specs.declared.unknown.Unknown.{Unknown};
ghost use Rattle.am_wire.specs.Inputs.{AreMessages, StopsWithin};
ghost use Rattle.am_wire.specs.Unknown.{StaysWhole};
ghost use Rattle.am_merge.specs.Maps.{IsMap, from_key};
ghost use Rattle.am_snapshot.specs.Encodings.{row_encoding};
ghost use Rattle.am_snapshot.specs.Loads.{IsLoaded, StopsLoadWithin, IsOutside};
ghost use Rattle.am_snapshot.specs.Pieces.{IsPiece};
ghost use Rattle.am_snapshot.specs.Saving.{IsSavableWithin};
ghost use Rattle.am_snapshot.specs.declared.error.SnapshotError.{SnapshotError};

use am_version_order::Version;
use am_wire::{Message, Record};

/// States that a fault in the bytes of an input is its only one, after the same messages, and that an input that is whole or
/// too large has none.
pub fn an_input_has_one_fault<M: Message>()
    ensures one { (unknown : Unknown) (limit : ℕ) (input : List ℕ) (messages others : List M) (left rest : Option (List ℕ)) (e d : WireError) →
        StopsWithin (M.reads unknown) limit input messages left (Wire e) → StopsWithin (M.reads unknown) limit input others rest (Wire d) →
        (messages ≡ others) × (e ≡ d) }
    ensures too_large { (unknown : Unknown) (limit : ℕ) (input : List ℕ) (messages others : List M) (left rest : Option (List ℕ)) (e : WireError) →
        StopsWithin (M.reads unknown) limit input messages left (Wire e) → StopsWithin (M.reads unknown) limit input others rest TooLarge → ⊥ }
    ensures whole { (unknown : Unknown) (limit : ℕ) (input : List ℕ) (messages others : List M) (left : Option (List ℕ)) (e : WireError) →
        StopsWithin (M.reads unknown) limit input messages left (Wire e) → AreMessages (M.reads unknown) input others → ⊥ }
{}

/// States that a saved map is loaded as that map, by any limit, if unknown fields are kept or no version has any: its row is
/// the row of these versions, no other map is loaded from it, and no fault stands in it.
pub fn what_is_saved_is_loaded<V: Record>()
    // PROMISE: A map that was saved loads as itself.
    ensures loaded { (unknown : Unknown) (limit : ℕ) (map : List V) → IsSavableWithin V.seen V.Key.cmp V.Version.is_value limit map →
        All (StaysWhole V.plain unknown) map → IsLoaded V.seen (V.reads unknown) (row_encoding V.seen map) map }
    ensures alone { (unknown : Unknown) (limit : ℕ) (map held : List V) → IsSavableWithin V.seen V.Key.cmp V.Version.is_value limit map →
        All (StaysWhole V.plain unknown) map → IsMap V.seen V.Key.cmp held →
        IsLoaded V.seen (V.reads unknown) (row_encoding V.seen map) held → held ≡ map }
    ensures sound { (unknown : Unknown) (limit : ℕ) (map : List V) (left : Option (List ℕ)) (e : SnapshotError) →
        IsSavableWithin V.seen V.Key.cmp V.Version.is_value limit map → All (StaysWhole V.plain unknown) map →
        StopsLoadWithin V.seen (V.reads unknown) limit (row_encoding V.seen map) left e → IsOutside e }
{}

/// States that a piece with no next key is the row of the whole map, and that a piece is followed by the row of the map from
/// the next key on: piece by piece, the whole row goes out.
pub fn pieces_are_the_row<V: Version>()
    ensures last { (most : ℕ) (map : List V) (row : List ℕ) →
        IsPiece V.seen most map (record { row = row; next = None }) → row ≡ row_encoding V.seen map }
    ensures others { (most : ℕ) (map : List V) (row : List ℕ) (key : V.Key) → IsMap V.seen V.Key.cmp map →
        IsPiece V.seen most map (record { row = row; next = Some key }) →
        row ++ row_encoding V.seen (from_key V.seen V.Key.cmp map key) ≡ row_encoding V.seen map }
    ensures shorter { (most : ℕ) (map : List V) (row : List ℕ) (key : V.Key) → IsMap V.seen V.Key.cmp map →
        IsPiece V.seen most map (record { row = row; next = Some key }) →
        length (from_key V.seen V.Key.cmp map key) < length map }
{}
