ghost use Rattle.std.specs.Prelude.{◌≡◌, ◌⊎◌, true, false, IfOk, OnOk, OnErr, is_some};
ghost use Rattle.lsvd_files.specs.Calls.{Changes, IsLeft, with_file, after_sync, after_failed_sync};
ghost use Rattle.lsvd_files.specs.Written.{filled};
ghost use Rattle.lsvd_objstore.specs.Directory.{Puts, MayPut, RemovesForGood, MayRemoveFile};
ghost use Rattle.lsvd_objstore.specs.Placing.{IsTrusted, Scratches, Writes, Touches, MakesAnew, MakesWhole};
ghost use Rattle.lsvd_objstore.specs.Placing.{Places, MayPlace};

use lsvd_files::Directory;
use std::io;
use std::io::ErrorKind;

/// Makes a file of these bytes under a name, in place of one that there is, so that it stays over a stop. It
/// is written under a temporary name, and has its own only when it is whole and synced. Where a sync of the
/// directory has failed before, nothing is done, and the put fails as that sync did.
pub(crate) fn put_file<D: Directory>(
    directory: &mut D,
    failed: &mut Option<io::Error>,
    temporary: &str,
    name: &str,
    bytes: &[u8],
) -> io::Result<()>
    requires apart { name.now ≡ temporary.now → ⊥ }
    requires trusted { IsTrusted (is_some failed.old) (D.state directory.old) }
    ensures trusted { IsTrusted (is_some failed.new) (D.state directory.new) }
    ensures ok { OnOk result (Changes (Puts temporary.now name.now bytes.now) (D.state directory.old)
        (D.state directory.new)) }
    ensures err { OnErr result (Changes (MayPut temporary.now name.now bytes.now) (D.state directory.old)
        (D.state directory.new)) }
{
    if let Some(error) = *failed {
        return Err(error);
    }
    match place_and_sync(directory, failed, temporary, name, bytes) {
        Ok(()) => Ok(()),
        Err(error) => {
            forget(directory, temporary);
            Err(error)
        }
    }
}

// Gives a whole file its name, and makes that outlast a stop.
fn place_and_sync<D: Directory>(
    directory: &mut D,
    failed: &mut Option<io::Error>,
    temporary: &str,
    name: &str,
    bytes: &[u8],
) -> io::Result<()>
    requires apart { name.now ≡ temporary.now → ⊥ }
    requires trusted { IsTrusted (is_some failed.old) (D.state directory.old) }
    ensures trusted { IsTrusted (is_some failed.new) (D.state directory.new) }
    ensures ok { OnOk result (Changes (Puts temporary.now name.now bytes.now) (D.state directory.old)
        (D.state directory.new)) }
    ensures err { OnErr result (Changes (MayPut temporary.now name.now bytes.now) (D.state directory.old)
        (D.state directory.new)) }
{
    place(directory, temporary, name, bytes)?;
    stands(directory)?;
    sync_unless(directory, failed)
}

// Gives a whole file its name.
fn place<D: Directory>(
    directory: &mut D,
    temporary: &str,
    name: &str,
    bytes: &[u8],
) -> io::Result<()>
    requires apart { name.now ≡ temporary.now → ⊥ }
    ensures ok { OnOk result (Changes (Places temporary.now name.now bytes.now) (D.state directory.old)
        (D.state directory.new)) }
    ensures err { OnErr result (Changes (MayPlace temporary.now name.now bytes.now) (D.state directory.old)
        (D.state directory.new)) }
{
    let file = write_whole(directory, temporary, bytes)?;
    let renamed = directory.rename(temporary, name);
    drop(file);
    renamed
}

// Makes a file of these bytes, and syncs it.
fn write_whole<D: Directory>(
    directory: &mut D,
    temporary: &str,
    bytes: &[u8],
) -> io::Result<D::File>
    ensures ok { IfOk result (λ file. Changes (MakesWhole temporary.now bytes.now (D.number file))
        (D.state directory.old) (D.state directory.new)) }
    ensures err { OnErr result (Changes (Scratches temporary.now) (D.state directory.old)
        (D.state directory.new)) }
{
    let mut file = make_anew(directory, temporary)?;
    match fill(directory, &mut file, bytes) {
        Ok(()) => Ok(file),
        Err(error) => {
            drop(file);
            Err(error)
        }
    }
}

// Makes a file under a temporary name. One that an earlier put of the name left, and could not remove, goes.
fn make_anew<D: Directory>(directory: &mut D, temporary: &str) -> io::Result<D::File>
    ensures ok { IfOk result (λ file. Changes (MakesAnew temporary.now (D.number file))
        (D.state directory.old) (D.state directory.new)) }
    ensures err { OnErr result (Changes (Scratches temporary.now) (D.state directory.old)
        (D.state directory.new)) }
{
    match directory.make(temporary) {
        Ok(file) => Ok(file),
        Err(error) if error.kind() == ErrorKind::AlreadyExists => {
            forget(directory, temporary);
            directory.make(temporary)
        }
        Err(error) => Err(error),
    }
}

// Writes bytes at the end of a file, and syncs it. It is locked as long as it is open, so that no one takes
// it for one that was left; where it cannot be locked, and is taken, it cannot get its name.
fn fill<D: Directory>(directory: &mut D, file: &mut D::File, bytes: &[u8]) -> io::Result<()>
    ensures same { D.number file.new ≡ D.number file.old }
    ensures ok { OnOk result (Changes (λ old new. new ≡ with_file (D.number file.old) (filled bytes.now) old)
        (D.state directory.old) (D.state directory.new)) }
    ensures err { OnErr result (Changes (Touches (D.number file.old)) (D.state directory.old)
        (D.state directory.new)) }
{
    try_to_lock(directory, file);
    write_pieces(directory, file, bytes)?;
    directory.sync_file(file)
}

// Locks a file, if it can be locked.
fn try_to_lock<D: Directory>(directory: &mut D, file: &D::File)
    ensures { D.state directory.new ≡ D.state directory.old }
{
    let _ = directory.lock(file);
}

// How many bytes of an object are written at a time.
const PIECE: usize = 1 << 20;

// Writes bytes at the end of a file, piece by piece.
fn write_pieces<D: Directory>(directory: &mut D, file: &mut D::File, bytes: &[u8]) -> io::Result<()>
    ensures same { D.number file.new ≡ D.number file.old }
    ensures ok { OnOk result (Changes (Writes (D.number file.old) bytes.now) (D.state directory.old)
        (D.state directory.new)) }
    ensures err { OnErr result (Changes (Touches (D.number file.old)) (D.state directory.old)
        (D.state directory.new)) }
{
    let mut at = 0;
    while at < bytes.len() {
        let count = (bytes.len() - at).min(PIECE);
        directory.append(file, &bytes[at..at + count])?;
        at += count;
    }
    Ok(())
}

// Removes what is left of a put under its temporary name. Where it stays, `clear` takes it.
fn forget<D: Directory>(directory: &mut D, temporary: &str)
    ensures { Changes (Scratches temporary.now) (D.state directory.old) (D.state directory.new) }
{
    let _ = directory.remove(temporary);
}

/// Removes a name, if there is one, so that it stays removed over a stop. Where a sync of the directory has
/// failed before, nothing is done, and the removal fails as that sync did.
pub(crate) fn remove_file<D: Directory>(
    directory: &mut D,
    failed: &mut Option<io::Error>,
    name: &str,
) -> io::Result<()>
    requires trusted { IsTrusted (is_some failed.old) (D.state directory.old) }
    ensures trusted { IsTrusted (is_some failed.new) (D.state directory.new) }
    ensures ok { OnOk result (Changes (RemovesForGood name.now) (D.state directory.old)
        (D.state directory.new)) }
    ensures err { OnErr result (Changes (MayRemoveFile name.now) (D.state directory.old)
        (D.state directory.new)) }
{
    if let Some(error) = *failed {
        return Err(error);
    }
    directory.remove(name)?;
    sync_unless(directory, failed)?;
    stands(directory)
}

/// Syncs a directory, unless an earlier sync of it failed; then this one fails as that one did. The system
/// may have given up what it could not write, and says so only once.
pub(crate) fn sync_unless<D: Directory>(
    directory: &mut D,
    failed: &mut Option<io::Error>,
) -> io::Result<()>
    requires trusted { IsTrusted (is_some failed.old) (D.state directory.old) }
    ensures trusted { IsTrusted (is_some failed.new) (D.state directory.new) }
    ensures ok { OnOk result (Changes (λ old new. (old.doubted ≡ false) × (new ≡ after_sync old))
        (D.state directory.old) (D.state directory.new)) }
    ensures err { OnErr result (Changes (λ old new. (new ≡ old) ⊎ (new ≡ after_failed_sync old))
        (D.state directory.old) (D.state directory.new)) }
{
    if let Some(error) = *failed {
        return Err(error);
    }
    let outcome = directory.sync();
    *failed = outcome.err();
    outcome
}

/// That the path still leads to the directory: what was done and told before is of this one then.
pub(crate) fn stands<D: Directory>(directory: &mut D) -> io::Result<()>
    ensures ok { OnOk result (Changes (λ old new. (new ≡ old) × (old.stands ≡ true)) (D.state directory.old)
        (D.state directory.new)) }
    ensures err { OnErr result (Changes IsLeft (D.state directory.old) (D.state directory.new)) }
{
    if !directory.stands()? {
        return Err(io::Error::new(ErrorKind::NotFound, "another directory has its name"));
    }
    Ok(())
}
