//! A map from sectors to places: a function on sectors, kept as the one shortest list of rows in order.
//!
//! Its contract: a set or a clear, of all places or of those that pass a test, changes the function on its
//! range and nowhere else, and the rows are always the shortest list in order that says it. The steps of a
//! look and of a set are bounded: a look makes at most as many comparisons as the number of rows has binary
//! digits, 16 more, and two for each row that it gives; a set takes at most 512 steps, and one more for each
//! row that it meets. The rows are given one by one without a copy of them, and a copy of a map has the same
//! rows. It stands on `page_list`, which keeps the rows.
#![tactic(auto)]

mod clear;
mod cut;
mod extent;
mod extent_map;
mod first;
mod in_order;
mod join;
mod laws;
mod look;
mod part;
mod place;

pub use extent::Extent;
pub use extent_map::ExtentMap;
pub use in_order::RowsInOrder;
pub use laws::{
    a_function_has_one_shortest_list, no_list_in_order_is_shorter,
    sectors_meet_the_rows_that_have_one_of_them,
};
pub use page_list::Steps;
pub use place::Place;
