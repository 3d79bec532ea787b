//! Laws of the versions that frames carry.

ghost use Rattle.std.specs.Prelude.{◌≡◌, ◌≤◌, ◌∷◌, [], List, length, map, All, Ok, None, true};
ghost use Rattle.am_wire.specs.Limits.{most};
ghost use Rattle.am_wire.specs.declared.unknown.Unknown.{Unknown};
ghost use Rattle.am_wire.specs.Unknown.{StaysWhole};
ghost use Rattle.am_silence.specs.Mesh.{Mesh, IsMesh, mesh_version, without_unknown};
ghost use Rattle.am_nflog.specs.Mesh.{Mesh as LogMesh, IsMesh as IsLogMesh, mesh_version as entry_version, without_unknown as entry_without_unknown};
ghost use Rattle.am_gossip.specs.declared.frame.Frame.TheVariants.{Push, Pull};
ghost use Rattle.am_gossip.specs.Frames.{fits};
ghost use Rattle.am_snapshot.specs.Encodings.{row_encoding};
ghost use Rattle.am_instance.specs.Deliveries.{Delivery, IsWhole, first_fault, parts_of, rows_in};
ghost use Rattle.am_instance.specs.Deliveries.Delivery.{OfSilence, OfEntry};
ghost use Rattle.am_instance.specs.Sendings.{delta_of, whole_state};
ghost use Rattle.am_cluster.specs.BothStates.{log_state, silence_state};
ghost use Rattle.am_cluster.specs.Contents.{carries, entries_in, held_in, silences_in, IsReadable, IsValue};
ghost use Rattle.am_cluster.specs.StepLaws.{VersionsStayInOrder};

/// States that a Delta of a version carries just that version, and nothing in it is at fault.
pub fn deltas_carry_their_version()
    ensures rows { (unknown : Unknown) (d : Delivery) → IsReadable unknown d → rows_in unknown (parts_of (delta_of d)) ≡ Ok d ∷ [] }
    ensures carried { (unknown : Unknown) (d : Delivery) → IsReadable unknown d → carries unknown (delta_of d) ≡ d ∷ [] }
{}

/// States that a Push or a Pull of both maps carries all their versions, and nothing in it is at fault.
pub fn whole_states_carry_both_maps()
    ensures sound { (unknown : Unknown) (silences : List Mesh) (log : List LogMesh) → All (IsReadable unknown) (map OfSilence silences) →
        All (IsReadable unknown) (map OfEntry log) →
        first_fault (rows_in unknown (whole_state silences log)) ≡ None }
    ensures push { (unknown : Unknown) (silences : List Mesh) (log : List LogMesh) → All (IsReadable unknown) (map OfSilence silences) →
        All (IsReadable unknown) (map OfEntry log) →
        carries unknown (Push (whole_state silences log)) ≡ held_in silences log }
    ensures pull { (unknown : Unknown) (silences : List Mesh) (log : List LogMesh) → All (IsReadable unknown) (map OfSilence silences) →
        All (IsReadable unknown) (map OfEntry log) →
        carries unknown (Pull (whole_state silences log)) ≡ held_in silences log }
{}

/// States that values of which nothing is lost are read again if a frame of them keeps its limit, or the row of their map is no
/// longer than a row may be.
pub fn what_keeps_its_limit_is_readable()
    ensures delta { (unknown : Unknown) (d : Delivery) → IsValue d → IsWhole unknown d → fits (delta_of d) ≡ true → IsReadable unknown d }
    ensures push { (unknown : Unknown) (silences : List Mesh) (log : List LogMesh) → All IsMesh silences → All IsLogMesh log →
        All (StaysWhole without_unknown unknown) silences → All (StaysWhole entry_without_unknown unknown) log →
        fits (Push (whole_state silences log)) ≡ true →
        All (IsReadable unknown) (map OfSilence silences) × All (IsReadable unknown) (map OfEntry log) }
    ensures pull { (unknown : Unknown) (silences : List Mesh) (log : List LogMesh) → All IsMesh silences → All IsLogMesh log →
        All (StaysWhole without_unknown unknown) silences → All (StaysWhole entry_without_unknown unknown) log →
        fits (Pull (whole_state silences log)) ≡ true →
        All (IsReadable unknown) (map OfSilence silences) × All (IsReadable unknown) (map OfEntry log) }
    ensures silences { (unknown : Unknown) (silences : List Mesh) → All IsMesh silences →
        All (StaysWhole without_unknown unknown) silences → length (row_encoding mesh_version silences) ≤ most →
        All (IsReadable unknown) (map OfSilence silences) }
    ensures log { (unknown : Unknown) (log : List LogMesh) → All IsLogMesh log →
        All (StaysWhole entry_without_unknown unknown) log → length (row_encoding entry_version log) ≤ most → All (IsReadable unknown) (map OfEntry log) }
{}

/// States that the versions of both maps, parted by their state, are the maps again, and that what comes behind others is
/// parted behind them.
pub fn states_are_parted()
    ensures silences { (silences : List Mesh) (log : List LogMesh) → silences_in (held_in silences log) ≡ silences }
    ensures log { (silences : List Mesh) (log : List LogMesh) → entries_in (held_in silences log) ≡ log }
    ensures silences_then { VersionsStayInOrder silence_state }
    ensures log_then { VersionsStayInOrder log_state }
{}
