ghost use Rattle.std.specs.Prelude.{◌≡◌, ◌++◌, [], IfNone, option_to_list};

use crate::extent::Extent;
use crate::place::Place;
use page_list::{Cursor, PageList};
use std::marker::Model;

/// The rows of a map, given one by one from the lowest sector on, without a copy of them.
///
/// Contracts see the rows that are left.
#[derive(Drop)]
pub struct RowsInOrder<'a, P: Place> {
    rows: &'a PageList<Extent<P>>,
    // The place of the next row.
    at: Cursor,
}

impl<'a, P: Place> Model for RowsInOrder<'a, P> {
    ghost use Rattle.std.specs.Prelude.{List, drop};
    ghost use Rattle.std.specs.Coded.{coded_list};
    ghost use Rattle.page_list.specs.Items.{IsIn, cursor_index};
    ghost use Rattle.extent_map.specs.declared.extent.Extent.{Extent};
    ghost use Rattle.extent_map.specs.State.{extent_code};

    ghost Value = { List (Extent P) };

    ghost coded = { coded_list (extent_code P.code) };

    ghost view = { λ r. drop (cursor_index r.rows.now.lengths r.at) r.rows.now.items };

    ghost invariant = { λ r. IsIn r.rows.now.lengths r.at };
}

impl<'a, P: Place> RowsInOrder<'a, P> {
    // All rows of a list.
    pub(crate) fn new(rows: &'a PageList<Extent<P>>) -> RowsInOrder<'a, P>
        ensures { result ≡ rows.now.items }
    {
        RowsInOrder {
            rows,
            at: rows.start(),
        }
    }

    /// The next row; none at the end. It takes no memory.
    pub fn next(&mut self) -> Option<Extent<P>>
        ensures gives { self.old ≡ option_to_list result ++ self.new }
        ensures end { IfNone result (self.old ≡ []) }
    {
        let row = self.rows.get(self.at)?;
        self.at = self.rows.next(self.at);
        Some(row)
    }
}
