ghost use Rattle.std.specs.Prelude.{IsTrue};
ghost use Rattle.object_table.specs.Table.{is_candidate};

use object_table::ObjectRow;

// What is known of an object that a collection may take sectors from. So its payload is not 0, and only among
// such rows is the order of shares an order.
#[derive(Drop)]
pub(crate) struct Candidate {
    pub(crate) row: ObjectRow,
    ghost is_one: { IsTrue (is_candidate row) },
}
