//! A list in pages: its items stand in order in pages of at most 128, so that an insert or a removal moves
//! the items of one page, and not all that stand behind it.
//!
//! Its contract: a cursor stands for an index of the list. An insert puts an item there, a removal takes out
//! just what is between two, and a search ends at the first item that does not pass a test. Where there is
//! room, an insert takes no memory and cannot fail. The steps are bounded: an insert moves at most 128 items,
//! and a removal as many beside those that it takes out; a search calls the test at most 9 times more than
//! the number of items has binary digits, and at most 57 times, and once where all items pass. A caller may
//! count its own steps with them. It stands on the standard library alone.
#![tactic(auto)]

mod cursor;
mod free;
mod page;
mod page_list;
mod search;
mod steps;

pub use cursor::Cursor;
pub use page_list::PageList;
pub use steps::Steps;
