//! Laws of the order of versions.

ghost use Rattle.std.specs.Prelude.{◌≡◌, ℕ};
ghost use Rattle.std.specs.Cmp.{IsTotalOrder};
ghost use Rattle.std.specs.declared.cmp.Ordering.TheVariants.{Equal};
ghost use Rattle.am_version_order.specs.Versions.{Version, rank_cmp};

/// States that the order of versions is total, and that versions of one key which it doesn't tell apart are the same.
pub fn versions_are_in_order<K>()
    // PROMISE: Of two versions of a key one is greater, or they are the same.
    ensures total { IsTotalOrder {K = Version K} rank_cmp }
    ensures exact { (v w : Version K) → v.key ≡ w.key → rank_cmp v w ≡ Equal → v ≡ w }
{}
