ghost use Rattle.std.specs.Prelude.{◌≡◌, ◌<◌, ◌↔◌, [], length, take, Some, None, IfOk, OnOk, IsOkAnd};
ghost use Rattle.std.specs.Prelude.{IsSome};
ghost use Rattle.std.specs.Io.{ReadsAtMost, WritesAtMost};
ghost use Rattle.std.specs.Io.KnownBytes.{Consumes};
ghost use Rattle.lsvd_listen.specs.Buffer.{empty_buffer, EndsWith};

use crate::buffer::{Buffer, ROOM};
use crate::calls;
use crate::connection::Connection;
use crate::faults::Faults;
use lsvd_fault::{Failed, Link, Sink, Source};
use std::alloc::{AllocError, Global};
use std::io;
use std::marker::Model;
use std::os::unix::net::UnixStream;

/// A link to a client of a Unix socket. It tells its count of faults, and of its bytes those that it holds
/// back alone.
///
/// So that a server makes few calls of the system, it reads ahead up to 64 KiB of what has come, and holds
/// back up to 64 KiB of what was written. Before a read waits for the client, what is held back is sent; so
/// no reply waits while its client does. What is held back when the link is dropped is lost: `send` first.
///
/// A client that is gone is an end of the input, and a fault of what is sent. A call that a signal interrupts
/// is made again; any other error is a fault. A read fails too where what was held back could not be sent
/// before it.
#[derive(Drop)]
pub struct SocketLink {
    stream: UnixStream,
    // What came and was not read yet.
    input: Buffer,
    // What was written and is held back.
    output: Buffer,
    faults: Faults,
}

impl Model for SocketLink {
    ghost use Rattle.lsvd_listen.specs.Socket.{SocketLinkState};

    ghost Value = { SocketLinkState };

    ghost view = { λ l. record { held = l.output.waiting; faults = l.faults } };
}

impl SocketLink {
    // A link over this stream, which holds nothing back and has no fault yet.
    pub(crate) fn over(alloc: Global, stream: UnixStream) -> Result<SocketLink, AllocError>
        ensures held { IfOk result (λ link. link.held ≡ []) }
        ensures faults { IfOk result (λ link. link.faults ≡ 0) }
    {
        let input = Buffer::new(alloc)?;
        let output = Buffer::new(alloc)?;
        let faults = Faults::new();
        Ok(SocketLink {
            stream,
            input,
            output,
            faults,
        })
    }

    /// Why the last call that failed did; None is where none has failed.
    pub fn last_error(&self) -> Option<io::Error>
        ensures { IsSome result ↔ (0 < self.now.faults) }
    {
        self.faults.last_error()
    }
}

// Reads bytes that came before. Where there are none it waits for some, after all that is held back was sent.
fn read_some(
    stream: &UnixStream,
    input: &mut Buffer,
    output: &mut Buffer,
    buf: &mut [u8],
) -> io::Result<usize>
    ensures bound { ReadsAtMost result buf.new }
    ensures ahead { 0 < length input.old.waiting
        → IsOkAnd result (λ n. Consumes (Some input.old.waiting) (Some input.new.waiting) (take n buf.new)) }
{
    if input.waiting().is_empty() && !buf.is_empty() {
        send_all(stream, output, &[])?;
        if ROOM <= buf.len() {
            return calls::receive(stream, buf);
        }
        input.fill(stream)?;
    }
    Ok(input.take(buf))
}

// Holds a piece back; where there is no room for it, what was held back before is sent first. One that would
// fill a buffer is sent at once. It answers how many bytes of the piece were taken.
fn write_some(stream: &UnixStream, output: &mut Buffer, piece: &[u8]) -> io::Result<usize>
    ensures bound { WritesAtMost result piece.now }
    ensures some { IfOk result (λ n. 0 < length piece.now → 0 < n) }
    ensures held { length piece.now < 65536 → OnOk result (EndsWith output.new.waiting piece.now) }
{
    if ROOM <= piece.len() {
        return send_all(stream, output, piece);
    }
    if output.room() < piece.len() {
        send_all(stream, output, &[])?;
    }
    output.put(piece);
    Ok(piece.len())
}

// Sends all that is held back and then some bytes of the piece, and answers how many of these: at least one,
// where there is one.
fn send_all(stream: &UnixStream, output: &mut Buffer, piece: &[u8]) -> io::Result<usize>
    ensures sent { OnOk result (output.new ≡ empty_buffer) }
    ensures bound { WritesAtMost result piece.now }
    ensures some { IfOk result (λ n. 0 < length piece.now → 0 < n) }
{
    loop {
        let held = output.waiting().len();
        if held == 0 && piece.is_empty() {
            return Ok(0);
        }
        let count = calls::send(stream, output.waiting(), piece)?;
        output.skip(count.min(held));
        if held < count {
            return Ok(count - held);
        }
    }
}

impl Source for SocketLink {
    ghost remaining = { λ _. None };

    ghost faults = { λ l. l.faults };

    fn read(&mut self, buf: &mut [u8]) -> Result<usize, Failed> {
        let outcome = read_some(&self.stream, &mut self.input, &mut self.output, buf);
        self.faults.judge(outcome)
    }

    fn faults(&self) -> u64 {
        self.faults.count()
    }
}

impl Sink for SocketLink {
    ghost contents = { λ _. None };

    ghost faults = { λ l. l.faults };

    fn write(&mut self, piece: &[u8]) -> Result<usize, Failed> {
        let outcome = write_some(&self.stream, &mut self.output, piece);
        self.faults.judge(outcome)
    }

    fn faults(&self) -> u64 {
        self.faults.count()
    }
}

impl Link for SocketLink {
    ghost use Rattle.std.proofs.Common.{refl};

    fn holds_back(&self, input: usize, output: usize) -> bool {
        input <= self.input.waiting().len() && output <= self.output.room()
    }

    ghost one_count = { λ _. refl };

    ghost one_output = { λ _. refl };

    ghost one_input = { λ _. refl };
}

impl Connection for SocketLink {
    ghost held = { λ l. l.held };

    fn send(&mut self) -> Result<(), Failed> {
        let outcome = send_all(&self.stream, &mut self.output, &[]);
        self.faults.judge(outcome)?;
        Ok(())
    }
}
