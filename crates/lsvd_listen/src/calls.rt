// The calls of the system on Unix sockets. One that a signal interrupts is made again.
ghost use Rattle.std.specs.Prelude.{◌+◌, ◌<◌, ◌≤◌, length, IfOk};
ghost use Rattle.std.specs.Io.{ReadsAtMost};

use std::io;
use std::io::{ErrorKind, IoSlice, Read};
use std::os::fd::AsRawFd;
use std::os::unix::net::{UnixListener, UnixStream};

// Waits for the next client. One that is gone before it is taken is passed over.
pub(crate) fn next_stream(listener: &UnixListener) -> io::Result<UnixStream> {
    for _ in 0..u64::MAX {
        match listener.accept() {
            Ok((stream, _)) => return above_standard_streams(stream),
            Err(error) => match error.kind() {
                ErrorKind::Interrupted | ErrorKind::ConnectionAborted => {}
                _ => return Err(error),
            },
        }
    }
    Err(ErrorKind::Interrupted.into())
}

// The same stream, under a number that no standard stream has: where one was closed, what is meant for it
// must not reach the client.
fn above_standard_streams(stream: UnixStream) -> io::Result<UnixStream> {
    if stream.as_raw_fd() <= 2 {
        return stream.try_clone();
    }
    Ok(stream)
}

// Waits for some bytes, and puts them to the front of `buf`. No byte for a `buf` that has room is the end,
// and so is a connection that its peer has cut.
pub(crate) fn receive(mut stream: &UnixStream, buf: &mut [u8]) -> io::Result<usize>
    ensures { ReadsAtMost result buf.new }
{
    for _ in 0..u64::MAX {
        match stream.read(buf) {
            Ok(count) => return Ok(count),
            Err(error) => match error.kind() {
                ErrorKind::Interrupted => {}
                ErrorKind::ConnectionReset | ErrorKind::BrokenPipe => return Ok(0),
                _ => return Err(error),
            },
        }
    }
    Err(ErrorKind::Interrupted.into())
}

// Sends some bytes of the two pieces, the first of them first, and answers how many: at least one. Where
// nobody reads it fails, and raises no signal.
pub(crate) fn send(stream: &UnixStream, first: &[u8], second: &[u8]) -> io::Result<usize>
    ensures bound { IfOk result (λ n. n ≤ length first.now + length second.now) }
    ensures some { IfOk result (λ n. 0 < n) }
{
    let pieces = [IoSlice::new(first), IoSlice::new(second)];
    for _ in 0..u64::MAX {
        match stream.write_vectored(&pieces) {
            Ok(0) => return Err(ErrorKind::WriteZero.into()),
            Ok(count) => return Ok(count),
            Err(error) => match error.kind() {
                ErrorKind::Interrupted => {}
                _ => return Err(error),
            },
        }
    }
    Err(ErrorKind::Interrupted.into())
}
