use std::alloc::Allocator;
use std::fs::{Files, Metadata, OpenOptions, Permissions};
use std::net::{Net, SocketAddr};
use std::os::fd::{BorrowedFd, OwnedFd};
use std::os::unix::fs::PermissionsExt;
use std::os::unix::net;
use std::{fs, io};

// Who may connect: the owner of the file, who may read and write it.
const OWNER_ALONE: u32 = 0o600;

// A runtime whose socket files are their owner's alone. `UnixListener::bind` gives its socket a name and then
// listens; here the file gets its mode in between, while each connection is still refused. So at no moment
// can anyone else connect.
#[derive(Drop)]
pub(crate) struct OwnerOnly<'a, R> {
    rt: &'a R,
    // Where the one file of this runtime is to stand.
    path: &'a str,
}

impl<'a, R> OwnerOnly<'a, R> {
    pub(crate) fn at(rt: &'a R, path: &'a str) -> OwnerOnly<'a, R> {
        OwnerOnly { rt, path }
    }
}

impl<R: Files> Files for OwnerOnly<'_, R> {
    type File = R::File;

    type Dir = R::Dir;

    fn bind_unix(&self, socket: BorrowedFd<'_>, addr: &net::SocketAddr) -> io::Result<()> {
        self.rt.bind_unix(socket, addr)?;
        fs::set_permissions(self.rt, self.path, Permissions::from_mode(OWNER_ALONE))
    }

    // All else is as at the runtime under it.
    fn open_file(&self, how: &OpenOptions, path: &str) -> io::Result<R::File> {
        self.rt.open_file(how, path)
    }

    fn open_dir(&self, path: &str) -> io::Result<R::Dir> {
        self.rt.open_dir(path)
    }

    fn metadata(&self, path: &str) -> io::Result<Metadata> {
        self.rt.metadata(path)
    }

    fn symlink_metadata(&self, path: &str) -> io::Result<Metadata> {
        self.rt.symlink_metadata(path)
    }

    fn copy(&self, from: &str, to: &str) -> io::Result<u64> {
        self.rt.copy(from, to)
    }

    fn rename(&self, from: &str, to: &str) -> io::Result<()> {
        self.rt.rename(from, to)
    }

    fn remove_file(&self, path: &str) -> io::Result<()> {
        self.rt.remove_file(path)
    }

    fn create_dir(&self, path: &str) -> io::Result<()> {
        self.rt.create_dir(path)
    }

    fn remove_dir(&self, path: &str) -> io::Result<()> {
        self.rt.remove_dir(path)
    }

    fn remove_dir_all<B: Allocator>(&self, alloc: B, path: &str) -> io::Result<()> {
        self.rt.remove_dir_all(alloc, path)
    }
}

impl<R: Net> Net for OwnerOnly<'_, R> {
    type Stream = R::Stream;

    type Listener = R::Listener;

    fn bind(&self, addr: SocketAddr) -> io::Result<R::Listener> {
        self.rt.bind(addr)
    }

    fn connect(&self, addr: SocketAddr) -> io::Result<R::Stream> {
        self.rt.connect(addr)
    }

    fn unix_socket(&self) -> io::Result<OwnedFd> {
        self.rt.unix_socket()
    }
}
