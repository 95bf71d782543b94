//! The table of objects: what a volume knows of its own objects that stand in the store, by their numbers.
//!
//! Its contract: a change of the settled map changes the live counts just as it says, and the lowest object
//! that may be removed is known without a search: one below the newest acknowledged checkpoint that this does
//! not map, on which no pin is, and from which no plan of a copy takes sectors. So are the objects that a
//! collection may take sectors from. It stands on the standard library alone, and takes memory in `reserve`
//! alone.
#![tactic(auto)]

mod list;
mod row;
mod table;

pub use row::ObjectRow;
pub use table::ObjectTable;
