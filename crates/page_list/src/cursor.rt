/// A place in a list in pages: that of an item, or the end. It is good for the list that answered it, until
/// that is changed by an insert or a removal.
#[derive(Clone, Copy, Debug, PartialEq, Eq)]
pub struct Cursor {
    // The page, by its index; at the end, how many pages there are.
    pub(crate) page: usize,
    // The item in the page; 0 at the end.
    pub(crate) item: usize,
}
