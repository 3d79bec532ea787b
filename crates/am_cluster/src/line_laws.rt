//! Laws of all lines.

ghost use Rattle.am_cluster.specs.LineLaws.{NamesAreFound, SentByThen, SentNoEarlier};

/// States that if the members are in order, as a configuration has them, each is found by its name.
pub fn names_are_found()
    ensures { NamesAreFound }
{}

/// States that a frame of versions counts as sent at the least of their update moments.
pub fn sent_at_the_least_update()
    ensures no_later { SentByThen }
    ensures no_earlier { SentNoEarlier }
{}
