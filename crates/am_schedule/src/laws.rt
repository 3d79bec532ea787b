//! Laws about all texts.

ghost use Rattle.am_schedule.specs.Laws.{FirstIsTold, NoLaterIsTold, OneForm, OneVerb};

/// States that if two lines of a text are at fault, only the first of them is reported.
pub fn first_fault_is_told()
    ensures first { FirstIsTold }
    ensures no_later { NoLaterIsTold }
{}

/// States that a line of words fits at most one row of the table.
pub fn lines_are_read_in_one_way()
    ensures form { OneForm }
    ensures verb { OneVerb }
{}
