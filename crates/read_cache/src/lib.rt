//! A cache, in memory, of blocks of the objects of a store: reads of a store that is far away are answered
//! from it where they go on in order or come again.
//!
//! Its contract: a read through the cache gives the bytes that the read's receipt stands for, whatever the
//! cache has, and asks of the store no more than two gets of that receipt's object. It stands on
//! `lsvd_objstore` for the store and its receipts, and on `lru` for the order of the last uses.
#![tactic(auto)]

mod block;
mod cache;

pub use cache::ReadCache;
