// Where a listener may listen.
use lsvd_listen::{ListenError, SocketListener};
use std::fs;
use std::io::ErrorKind;
use std::os::unix::fs::PermissionsExt;
use std::os::unix::net::UnixStream;
use test_output::TestError;

const PATH: &str = "socket_of_one";

/// Tells what stands in the way of a listener.
pub fn tell_all(rt: &HostRuntime) -> Result<(), TestError> {
    let listener = SocketListener::bind(rt, PATH)?;
    let told = tell_while_listening(rt);
    drop(listener);
    told?;
    tell_bind(rt, "after it", PATH)?;
    tell_connect(rt)?;
    fs::remove_file(rt, PATH)?;
    fs::write(rt, PATH, b"a file".as_slice())?;
    tell_bind(rt, "a file that is no socket", PATH)?;
    tell_file(rt)?;
    fs::remove_file(rt, PATH)?;
    tell_bind(rt, "no such folder", "absent_folder/socket")
}

fn tell_while_listening(rt: &HostRuntime) -> Result<(), TestError> {
    tell_mode(rt)?;
    tell_bind(rt, "while one listens", PATH)
}

fn tell_mode(rt: &HostRuntime) -> Result<(), TestError> {
    let mode = fs::metadata(rt, PATH)?.permissions().mode();
    println!(rt; "the file's mode: {:o}", mode & 0o777)?;
    Ok(())
}

fn tell_bind(rt: &HostRuntime, what: &str, path: &str) -> Result<(), TestError> {
    let told = match SocketListener::bind(rt, path) {
        Ok(listener) => {
            drop(listener);
            "listens"
        }
        Err(ListenError::InUse) => "in use",
        Err(ListenError::NotSocket) => "no socket",
        Err(ListenError::Os(error)) if error.kind() == ErrorKind::NotFound => "not found",
        Err(_) => "refused",
    };
    println!(rt; "{what}: {told}")?;
    Ok(())
}

// The file stays when its listener is gone.
fn tell_connect(rt: &HostRuntime) -> Result<(), TestError> {
    let refused =
        matches!(UnixStream::connect(rt, PATH), Err(error) if error.kind() == ErrorKind::ConnectionRefused);
    println!(rt; "nobody listens at what it left: {refused}")?;
    Ok(())
}

fn tell_file(rt: &HostRuntime) -> Result<(), TestError> {
    let kept = fs::read(rt, PATH)?;
    let is_kept = kept.as_slice() == b"a file".as_slice();
    drop(kept);
    println!(rt; "it is as it was: {is_kept}")?;
    Ok(())
}
