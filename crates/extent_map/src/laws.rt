ghost use Rattle.extent_map.specs.Laws.{HasOneShortestList, HasNoShorterList, MeetsBySectors};

use crate::place::Place;

/// A law: two shortest lists of rows that give each sector the same place are one list.
pub fn a_function_has_one_shortest_list<P: Place>()
    ensures { HasOneShortestList P.on }
{}

/// A law: rows in order, none of which overlap, that give each sector the place that a shortest list gives it
/// are no fewer than its rows.
pub fn no_list_in_order_is_shorter<P: Place>()
    ensures { HasNoShorterList P.on }
{}

/// A law: sectors meet a row, for which a set of them may take one step more, exactly where one of them is a
/// sector of the row.
pub fn sectors_meet_the_rows_that_have_one_of_them<P: Place>()
    ensures { MeetsBySectors P }
{}
