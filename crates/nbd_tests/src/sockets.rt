// What comes through a Unix socket, of which no clause can speak.
use lsvd_fault::{Failed, Sink, Source, write_all};
use lsvd_listen::{Connection, Listener, SocketLink, SocketListener};
use std::alloc::{AllocError, Global};
use std::fs;
use std::io::{ErrorKind, Read, Write};
use std::os::unix::net::UnixStream;
use test_output::{TestError, head};

const PATH: &str = "socket_of_links";

/// Tells what links over a socket do.
pub fn tell_all(rt: &HostRuntime) -> Result<(), TestError> {
    let mut listener = SocketListener::bind(rt, PATH)?;
    let told = tell_clients(rt, &mut listener);
    drop(listener);
    told?;
    fs::remove_file(rt, PATH)?;
    Ok(())
}

fn tell_clients(rt: &HostRuntime, listener: &mut SocketListener) -> Result<(), TestError> {
    tell_first(rt, listener)?;
    tell_cut(rt, listener)
}

// A client that goes when it has read all that was sent to it.
fn tell_first(rt: &HostRuntime, listener: &mut SocketListener) -> Result<(), TestError> {
    let client = UnixStream::connect(rt, PATH)?;
    let mut link = next_of(listener)?;
    let told = tell_read_out(rt, client, &mut link);
    drop(link);
    told
}

fn tell_read_out(
    rt: &HostRuntime,
    mut client: UnixStream,
    link: &mut SocketLink,
) -> Result<(), TestError> {
    let told = tell_both(rt, &mut client, link);
    drop(client);
    told?;
    tell_gone(rt, link)
}

fn tell_both(
    rt: &HostRuntime,
    client: &mut UnixStream,
    link: &mut SocketLink,
) -> Result<(), TestError> {
    tell_echoes(rt, client, link)?;
    tell_held(rt, client, link)
}

fn next_of(listener: &mut SocketListener) -> Result<SocketLink, TestError> {
    match listener.accept()? {
        Some(link) => Ok(link),
        None => Err(TestError::Failed),
    }
}

// How many bytes a client sends, and the most that one read of the link takes.
const SIZES: &[(usize, usize)] = &[
    (1, 1),
    (300, 7),
    (65_535, 65_535),
    (65_536, 65_536),
    (65_537, 100_000),
    (100_000, 40_000),
];

fn tell_echoes(
    rt: &HostRuntime,
    client: &mut UnixStream,
    link: &mut SocketLink,
) -> Result<(), TestError> {
    for (len, most) in SIZES {
        let same = echo(rt.alloc(), client, link, *len, *most)?;
        println!(rt; "{len} bytes, at most {most} in a read, come back: {same}")?;
    }
    Ok(())
}

// A client sends bytes of which each tells its place, the link writes back what it reads, and the client has
// the same.
fn echo(
    alloc: Global,
    client: &mut UnixStream,
    link: &mut SocketLink,
    len: usize,
    most: usize,
) -> Result<bool, TestError> {
    let sent = pattern(alloc, len)?;
    let is_same = is_echoed(alloc, client, link, sent.as_slice(), most);
    drop(sent);
    is_same
}

fn is_echoed(
    alloc: Global,
    client: &mut UnixStream,
    link: &mut SocketLink,
    sent: &[u8],
    most: usize,
) -> Result<bool, TestError> {
    client.write_all(sent)?;
    write_back(alloc, link, sent.len(), most)?;
    let mut back = vec![in alloc; 0; sent.len()]?;
    let outcome = client.read_exact(back.as_mut_slice());
    let is_same = back.as_slice() == sent;
    drop(back);
    outcome?;
    Ok(is_same)
}

fn pattern(alloc: Global, len: usize) -> Result<Vec<u8>, AllocError> {
    let mut bytes = vec![in alloc; 0; len]?;
    for (at, byte) in bytes.iter_mut().enumerate() {
        *byte = (at % 251) as u8;
    }
    Ok(bytes)
}

fn write_back(
    alloc: Global,
    link: &mut SocketLink,
    len: usize,
    most: usize,
) -> Result<(), TestError> {
    let mut buffer = vec![in alloc; 0; most]?;
    let written = write_by(link, buffer.as_mut_slice(), len);
    drop(buffer);
    written
}

fn write_by(link: &mut SocketLink, buffer: &mut [u8], len: usize) -> Result<(), TestError> {
    let mut left = len;
    for _ in 0..len {
        if left == 0 {
            break;
        }
        let count = link.read(buffer)?;
        write_all(link, buffer.get(..count).unwrap_or(b""))?;
        left = left.saturating_sub(count);
    }
    link.send()?;
    Ok(())
}

// Whether no byte is there for a client.
fn has_nothing(client: &mut UnixStream) -> Result<bool, TestError> {
    client.set_nonblocking(true)?;
    let outcome = client.read(&mut [0; 1]);
    client.set_nonblocking(false)?;
    Ok(matches!(outcome, Err(error) if error.kind() == ErrorKind::WouldBlock))
}

// A reply is held back while requests wait, until it is sent, or until the next read has to wait.
fn tell_held(
    rt: &HostRuntime,
    client: &mut UnixStream,
    link: &mut SocketLink,
) -> Result<(), TestError> {
    client.write_all(b"ab")?;
    tell_read(rt, link)?;
    tell_write(rt, link, b"1")?;
    tell_read(rt, link)?;
    tell_nothing(rt, client)?;
    client.write_all(b"c")?;
    tell_read(rt, link)?;
    tell_received(rt, client)?;
    tell_write(rt, link, b"2")?;
    tell_nothing(rt, client)?;
    tell_sent(rt, link)?;
    tell_received(rt, client)
}

fn tell_nothing(rt: &HostRuntime, client: &mut UnixStream) -> Result<(), TestError> {
    let nothing = has_nothing(client)?;
    println!(rt; "nothing waits for the client: {nothing}")?;
    Ok(())
}

fn tell_received(rt: &HostRuntime, client: &mut UnixStream) -> Result<(), TestError> {
    let mut byte = [0; 1];
    client.read_exact(&mut byte)?;
    println!(rt; "the client has {byte:?}")?;
    Ok(())
}

fn tell_read(rt: &HostRuntime, link: &mut SocketLink) -> Result<(), TestError> {
    let mut byte = [0; 1];
    let outcome = link.read(&mut byte);
    println!(rt; "the link reads {outcome:?} {byte:?}")?;
    Ok(())
}

fn tell_write(rt: &HostRuntime, link: &mut SocketLink, piece: &[u8]) -> Result<(), TestError> {
    let outcome = link.write(piece);
    println!(rt; "it writes {outcome:?}")?;
    Ok(())
}

fn tell_sent(rt: &HostRuntime, link: &mut SocketLink) -> Result<(), TestError> {
    let outcome: Result<(), Failed> = link.send();
    println!(rt; "it sends {outcome:?}")?;
    Ok(())
}

// A client that is gone: the input ends, and what is sent is a fault.
fn tell_gone(rt: &HostRuntime, link: &mut SocketLink) -> Result<(), TestError> {
    head(rt, "the client is gone")?;
    tell_read(rt, link)?;
    tell_write(rt, link, b"3")?;
    tell_sent(rt, link)?;
    tell_read(rt, link)?;
    tell_write(rt, link, &[0; 65_536])?;
    let broken = matches!(link.last_error(), Some(error) if error.kind() == ErrorKind::BrokenPipe);
    println!(rt;
        "{} faults, of a broken pipe: {broken}",
        Source::faults(link)
    )?;
    Ok(())
}

// A client that goes before it has read what was sent to it, so that its connection is cut.
fn tell_cut(rt: &HostRuntime, listener: &mut SocketListener) -> Result<(), TestError> {
    let client = UnixStream::connect(rt, PATH)?;
    let mut link = next_of(listener)?;
    let told = tell_unread(rt, client, &mut link);
    drop(link);
    told?;
    println!(rt; "{} links, {} faults", listener.given(), listener.faults())?;
    Ok(())
}

fn tell_unread(
    rt: &HostRuntime,
    client: UnixStream,
    link: &mut SocketLink,
) -> Result<(), TestError> {
    let told = tell_written(rt, link);
    drop(client);
    told?;
    tell_gone(rt, link)
}

fn tell_written(rt: &HostRuntime, link: &mut SocketLink) -> Result<(), TestError> {
    tell_write(rt, link, b"unread")?;
    tell_sent(rt, link)
}
