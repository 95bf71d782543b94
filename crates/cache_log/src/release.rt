ghost use Rattle.std.specs.Prelude.{◌≡◌, ◌+◌, ◌<◌, ◌≤◌, length, drop};
ghost use Rattle.std.specs.VecDeque.{deque_capacity};
ghost use Rattle.log_room.specs.Room.{max_log};
ghost use Rattle.cache_log.specs.Rows.{since};
ghost use Rattle.cache_log.specs.Log.{start_of};
ghost use Rattle.cache_log.specs.Committed.{sectors_from};

use crate::row::Row;
use log_room::distance;
use std::collections::VecDeque;

// Takes the rows with seqs below this one from the front, and answers how many these were.
pub(crate) fn drop_below(rows: &mut VecDeque<Row>, seq: u64) -> usize
    ensures rows { rows.new.items ≡ since seq rows.old.items }
    ensures count { result + length rows.new.items ≡ length rows.old.items }
    ensures capacity { deque_capacity rows.new ≡ deque_capacity rows.old }
{
    let len = rows.len();
    for count in 0..len {
        if seq <= rows[0].seq() {
            return count;
        }
        rows.pop_front();
    }
    len
}

// The sectors from one on to the head of a log of `log` sectors, where these are all its records.
pub(crate) fn sectors_from(log: u64, from: u64, head: u64, rows: &VecDeque<Row>) -> u64
    requires log { log ≤ max_log }
    requires from { from < log }
    requires head { head < log }
    ensures sectors { result ≡ sectors_from log from head rows.now.items }
    ensures most { result ≤ log }
{
    if rows.is_empty() {
        0
    } else {
        distance(log, from, head)
    }
}

// Where the first record of these stands that is not dropped, and else the head.
pub(crate) fn start_of(rows: &VecDeque<Row>, dropped: usize, head: u64) -> u64
    ensures { result ≡ start_of head (drop dropped rows.now.items) }
{
    match rows.get(dropped) {
        Some(row) => row.position(),
        None => head,
    }
}
