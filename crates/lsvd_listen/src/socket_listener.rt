ghost use Rattle.std.specs.Prelude.{◌≡◌, ◌<◌, ◌↔◌, false, None, IfOk, IsSome};
ghost use Rattle.lsvd_listen.specs.Socket.{SocketListenerState};

use crate::calls;
use crate::faults::Faults;
use crate::listener::Listener;
use crate::owner_only::OwnerOnly;
use crate::socket_link::SocketLink;
use lsvd_fault::Failed;
use std::alloc::{AllocError, AllocGlobal, Global};
use std::fs::Files;
use std::io::ErrorKind;
use std::marker::Model;
use std::net::Net;
use std::os::unix::fs::FileTypeExt;
use std::os::unix::net::{UnixListener, UnixStream};
use std::{fs, io};
use thiserror::Error;

/// Why nothing could listen at a path. None of these is counted anywhere, since there is no listener.
#[derive(Clone, Copy, Debug, Error)]
pub enum ListenError {
    /// A server is alive there: its socket took a connection. Nothing was changed.
    #[error("a server is alive at this path")]
    InUse,
    /// A file that is no socket stands there, or a link. It was left alone.
    #[error("a file that is no socket stands at this path")]
    NotSocket,
    /// The operating system refused a call.
    #[error("{0}")]
    Os(io::Error),
    /// Memory ran out.
    #[error("out of memory")]
    OutOfMemory,
}

impl From<AllocError> for ListenError {
    fn from(_: AllocError) -> ListenError {
        ListenError::OutOfMemory
    }
}

impl From<io::Error> for ListenError {
    // An error that has no number of the system's is one of this program's own.
    fn from(error: io::Error) -> ListenError {
        if error.kind() == ErrorKind::OutOfMemory && error.raw_os_error().is_none() {
            return ListenError::OutOfMemory;
        }
        ListenError::Os(error)
    }
}

/// A listener over a Unix socket: a file of the operating system, by whose path clients connect, and its
/// owner's alone. It is never closed, never answers None, and does not tell which links are to come.
///
/// A wait that a signal interrupts goes on, and a client that is gone before it was taken is passed over. Any
/// other error is a fault, and so is want of memory for the buffers of a link, whose client is then let go.
#[derive(Drop)]
pub struct SocketListener {
    listener: UnixListener,
    alloc: Global,
    given: u64,
    faults: Faults,
}

impl Model for SocketListener {
    ghost use Rattle.lsvd_listen.specs.Socket.{SocketListenerState};

    ghost Value = { SocketListenerState };

    ghost view = { λ l. record { given = l.given; faults = l.faults } };
}

impl SocketListener {
    /// Listens at this path, where clients may connect from now on. A socket file that a stopped server left
    /// there is replaced. The file stays when the listener is dropped.
    ///
    /// Only its owner can connect, at every moment. Of two servers that begin at the same time, over a file
    /// that was left, the later one may take the path from the other.
    pub fn bind<R: Files + Net + AllocGlobal>(
        rt: &R,
        path: &str,
    ) -> Result<SocketListener, ListenError>
        ensures { IfOk result (λ listener. listener ≡ record { given = 0; faults = 0 }) }
    {
        clear_path(rt, path)?;
        let listener = UnixListener::bind(&OwnerOnly::at(rt, path), path)?;
        Ok(SocketListener::over(rt.alloc(), listener))
    }

    fn over(alloc: Global, listener: UnixListener) -> SocketListener
        ensures { result ≡ record { given = 0; faults = 0 } }
    {
        SocketListener {
            listener,
            alloc,
            given: 0,
            faults: Faults::new(),
        }
    }

    /// Why the last call that failed did; None is where none has failed.
    pub fn last_error(&self) -> Option<io::Error>
        ensures { IsSome result ↔ (0 < self.now.faults) }
    {
        self.faults.last_error()
    }
}

impl Listener for SocketListener {
    type Link = SocketLink;

    ghost given = { λ l. l.given };

    ghost closed = { λ _. false };

    ghost faults = { λ l. l.faults };

    ghost coming = { λ _. None };

    fn accept(&mut self) -> Result<Option<SocketLink>, Failed> {
        let outcome = next_link(self.alloc, &self.listener);
        let link = self.faults.judge(outcome)?;
        self.given = self.given.saturating_add(1);
        Ok(Some(link))
    }

    fn given(&self) -> u64 {
        self.given
    }

    fn closed(&self) -> bool {
        false
    }

    fn faults(&self) -> u64 {
        self.faults.count()
    }
}

// Waits for the next client, and makes the link to it.
fn next_link(alloc: Global, listener: &UnixListener) -> io::Result<SocketLink> {
    let stream = calls::next_stream(listener)?;
    let link = SocketLink::over(alloc, stream)?;
    Ok(link)
}

// Removes the socket file that a stopped server left. Its server is alive where a connection is taken.
fn clear_path<R: Files + Net>(rt: &R, path: &str) -> Result<(), ListenError> {
    match fs::symlink_metadata(rt, path) {
        Ok(found) if found.file_type().is_socket() => {}
        Ok(_) => return Err(ListenError::NotSocket),
        Err(error) if error.kind() == ErrorKind::NotFound => return Ok(()),
        Err(error) => return Err(error.into()),
    }
    match UnixStream::connect(rt, path) {
        Ok(_) => Err(ListenError::InUse),
        Err(error) if error.kind() == ErrorKind::ConnectionRefused => {
            fs::remove_file(rt, path)?;
            Ok(())
        }
        Err(error) => Err(error.into()),
    }
}
