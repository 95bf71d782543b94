ghost use Rattle.std.specs.Prelude.{◌≡◌, ℕ, ◌+◌, ◌≤◌, ◌++◌, [], length, take, drop, min, IfOk, OnErr};
ghost use Rattle.lsvd_listen.specs.Buffer.{empty_buffer, bytes_between};

use crate::calls;
use std::alloc::{AllocError, Global};
use std::io;
use std::marker::Model;
use std::os::unix::net::UnixStream;

// How many bytes a buffer has room for where nothing waits in it.
pub(crate) const ROOM: usize = 65_536;

// The bytes that wait between a link and its socket: put in behind, taken from the front.
#[derive(Drop)]
pub(crate) struct Buffer {
    bytes: Vec<u8>,
    // Where the first byte that waits stands, and one past the last one. Where none waits, both are 0.
    from: usize,
    to: usize,
}

impl Model for Buffer {
    ghost use Rattle.std.specs.Prelude.{◌≡◌, ◌≤◌, ◌-◌, length};
    ghost use Rattle.lsvd_listen.specs.Buffer.{BufferState, bytes_between};

    ghost Value = { BufferState };

    ghost view = { λ b. record { waiting = bytes_between b.bytes.items b.from b.to; room = 65536 - b.to } };

    ghost invariant = { λ b. (b.from ≤ b.to) × (b.to ≤ 65536) × (length b.bytes.items ≡ 65536)
        × (b.from ≡ b.to → b.to ≡ 0) };
}

impl Buffer {
    // A buffer in which nothing waits.
    pub(crate) fn new(alloc: Global) -> Result<Buffer, AllocError>
        ensures { IfOk result (λ buffer. buffer ≡ empty_buffer) }
    {
        let bytes = vec![in alloc; 0u8; ROOM]?;
        Ok(Buffer {
            bytes,
            from: 0,
            to: 0,
        })
    }

    // All that waits.
    pub(crate) fn waiting(&self) -> &[u8]
        ensures waiting { result.now ≡ self.now.waiting }
        ensures empty { self.now.waiting ≡ [] → self.now ≡ empty_buffer }
    {
        &self.bytes[self.from..self.to]
    }

    // For how many bytes there is room behind what waits.
    pub(crate) fn room(&self) -> usize
        ensures { result ≡ self.now.room }
    {
        ROOM - self.to
    }

    // Puts a piece behind what waits.
    pub(crate) fn put(&mut self, piece: &[u8])
        requires { length piece.now ≤ self.old.room }
        ensures { self.new.waiting ≡ self.old.waiting ++ piece.now }
    {
        put_at(self.bytes.as_mut_slice(), self.to, piece);
        self.to += piece.len();
    }

    // Takes that many bytes away from the front.
    pub(crate) fn skip(&mut self, count: usize)
        requires { count ≤ length self.old.waiting }
        ensures rest { self.new.waiting ≡ drop count self.old.waiting }
        ensures empty { self.new.waiting ≡ [] → self.new ≡ empty_buffer }
    {
        self.from += count;
        if self.from == self.to {
            self.from = 0;
            self.to = 0;
        }
    }

    // Moves as many bytes from the front as `buf` has room for, and tells how many.
    pub(crate) fn take(&mut self, buf: &mut [u8]) -> usize
        ensures count { result ≡ min (length self.old.waiting) (length buf.old) }
        ensures bytes { buf.new ≡ take result self.old.waiting ++ drop result buf.old }
        ensures rest { self.new.waiting ≡ drop result self.old.waiting }
    {
        let waiting = self.waiting();
        let count = waiting.len().min(buf.len());
        buf[..count].copy_from_slice(&waiting[..count]);
        self.skip(count);
        count
    }

    // Waits for some bytes where none waits here, and keeps as many as came with one call of the system; none
    // are the end.
    pub(crate) fn fill(&mut self, stream: &UnixStream) -> io::Result<()>
        requires { self.old.waiting ≡ [] }
        ensures { OnErr result (self.new ≡ self.old) }
    {
        let count = calls::receive(stream, self.bytes.as_mut_slice())?;
        self.from = 0;
        self.to = count;
        Ok(())
    }
}

// Puts a piece into the bytes at a place.
fn put_at(bytes: &mut [u8], at: usize, piece: &[u8])
    requires { at + length piece.now ≤ length bytes.old }
    ensures { (from : ℕ) → from ≤ at → bytes_between bytes.new from (at + length piece.now)
        ≡ bytes_between bytes.old from at ++ piece.now }
{
    bytes[at..at + piece.len()].copy_from_slice(piece);
}
