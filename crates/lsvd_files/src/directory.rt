ghost use Rattle.std.specs.Prelude.{◌≡◌, ℕ, length, Option, true, false, IfOk, OnOk, OnErr};
ghost use Rattle.std.specs.Prelude.{option_map, IsTrue, IfSome, slice_get};
ghost use Rattle.lsvd_files.specs.Directory.{FileState, DirectoryState};
ghost use Rattle.lsvd_files.specs.Calls.{Changes, ByPath, IsLeft, Makes, MayMake, Opens, AppendsPart};
ghost use Rattle.lsvd_files.specs.Calls.{Renames, MayRename, Removes, MayRemove, IsRead, AreNames};
ghost use Rattle.lsvd_files.specs.Calls.{length_under};
ghost use Rattle.lsvd_files.specs.Calls.{with_file, appended, synced_file, doubted_file, after_sync};
ghost use Rattle.lsvd_files.specs.Calls.{after_failed_sync, after_move};

use crate::names::FileNames;
use std::alloc::Global;
use std::io;

/// An open directory of the operating system, and its files.
///
/// A name is changed to another at one moment, so that at each moment the other leads where it led, or to the
/// new file. Names outlast a stop of the machine once the directory was synced, and the bytes of a file once
/// the file was. A call that failed may have done its part or not. After a sync that failed, of a file or of
/// the directory, no later sync of it is trusted.
///
/// Files that are named are reached by the path at which the directory was opened. Where it leads elsewhere
/// by now, such a call is not of this directory; it is taken not to lead back.
pub trait Directory {
    /// An open file. It is closed where it is dropped, and its lock is given up then.
    type File: Drop;

    /// What it holds and what a stop may leave of it, where it tells that.
    ghost state: { Self → Option DirectoryState };

    /// The number of an open file.
    ghost number: { Self.File → ℕ };

    /// Makes a file under a name that leads nowhere, and opens it to be written. The error's kind is
    /// `AlreadyExists` where there is one.
    fn make(&mut self, name: &str) -> io::Result<Self::File>
        ensures ok { IfOk result (λ file. Changes (Makes name.now (number file)) (state self.old)
            (state self.new)) }
        ensures err { OnErr result (Changes (MayMake name.now) (state self.old) (state self.new)) };

    /// Opens the file under a name to be read; None is where the name leads nowhere.
    fn open(&mut self, name: &str) -> io::Result<Option<Self::File>>
        ensures ok { IfOk result (λ file. Changes (Opens name.now (option_map number file)) (state self.old)
            (state self.new)) }
        ensures err { OnErr result (Changes IsLeft (state self.old) (state self.new)) };

    /// Locks a file for as long as it is open, unless another open of it holds its lock; then the answer is
    /// false. The lock is advisory.
    fn lock(&mut self, file: &Self::File) -> io::Result<bool>
        ensures ok { IfOk result (λ is_locked. Changes (λ old new. (new ≡ old) × (IsTrue is_locked
            → IfSome (slice_get old.files (number file.now)) (λ (file : FileState). file.locked ≡ false)))
            (state self.old) (state self.new)) }
        ensures err { OnErr result (state self.new ≡ state self.old) };

    /// Writes the whole of a piece at the end of a file. Where it fails, a front of the piece was written.
    fn append(&mut self, file: &mut Self::File, piece: &[u8]) -> io::Result<()>
        ensures same { number file.new ≡ number file.old }
        ensures ok { OnOk result (Changes (λ old new. new ≡ with_file (number file.old) (appended piece.now)
            old) (state self.old) (state self.new)) }
        ensures err { OnErr result (Changes (AppendsPart (number file.old) piece.now) (state self.old)
            (state self.new)) };

    /// Makes the bytes of a file outlast a stop.
    fn sync_file(&mut self, file: &Self::File) -> io::Result<()>
        ensures ok { OnOk result (Changes (λ old new. new ≡ with_file (number file.now) synced_file old)
            (state self.old) (state self.new)) }
        ensures err { OnErr result (Changes (λ old new. new ≡ with_file (number file.now) doubted_file old)
            (state self.old) (state self.new)) };

    /// How many bytes an open file has.
    fn size(&mut self, file: &Self::File) -> io::Result<u64>
        ensures ok { IfOk result (λ size. Changes (λ old new. (new ≡ old)
            × IfSome (slice_get old.files (number file.now))
            (λ (file : FileState). size ≡ length file.bytes)) (state self.old) (state self.new)) }
        ensures err { OnErr result (state self.new ≡ state self.old) };

    /// Reads the bytes of an open file from `at` on into the whole of `buf`. It fails where the file ends
    /// before, and any bytes stand in `buf` then.
    fn read(&mut self, file: &Self::File, at: u64, buf: &mut [u8]) -> io::Result<()>
        ensures ok { OnOk result (Changes (λ old new. (new ≡ old) × IsRead (number file.now) at buf.new old)
            (state self.old) (state self.new)) }
        ensures err { OnErr result (state self.new ≡ state self.old) };

    /// Changes a name to another, which leads where the one led from then on.
    fn rename(&mut self, from: &str, to: &str) -> io::Result<()>
        ensures ok { OnOk result (Changes (λ old new. ByPath (Renames from.now to.now old new) old new)
            (state self.old) (state self.new)) }
        ensures err { OnErr result (Changes (MayRename from.now to.now) (state self.old) (state self.new)) };

    /// Removes a name. False is where it leads nowhere.
    fn remove(&mut self, name: &str) -> io::Result<bool>
        ensures ok { IfOk result (λ is_removed. Changes (λ old new. ByPath
            (Removes name.now is_removed old new) old new) (state self.old) (state self.new)) }
        ensures err { OnErr result (Changes (MayRemove name.now) (state self.old) (state self.new)) };

    /// Makes the names outlast a stop, as they are now.
    fn sync(&mut self) -> io::Result<()>
        ensures ok { OnOk result (Changes (λ old new. new ≡ after_sync old) (state self.old)
            (state self.new)) }
        ensures err { OnErr result (Changes (λ old new. new ≡ after_failed_sync old) (state self.old)
            (state self.new)) };

    /// How many bytes the file under a name has; None is where the name leads nowhere. The error's kind is
    /// `InvalidInput` where it leads to something else than a file.
    fn length(&mut self, name: &str) -> io::Result<Option<u64>>
        ensures ok { IfOk result (λ found. Changes (λ old new. ByPath ((new ≡ old)
            × (found ≡ length_under old name.now)) old new) (state self.old) (state self.new)) }
        ensures err { OnErr result (Changes IsLeft (state self.old) (state self.new)) };

    /// All names that are texts, in any order.
    fn names(&mut self, alloc: Global) -> io::Result<FileNames>
        ensures ok { IfOk result (λ listed. Changes (λ old new. ByPath ((new ≡ old)
            × AreNames old listed) old new) (state self.old) (state self.new)) }
        ensures err { OnErr result (Changes IsLeft (state self.old) (state self.new)) };

    /// Whether the path at which it was opened still leads to it.
    fn stands(&mut self) -> io::Result<bool>
        ensures ok { IfOk result (λ stands. Changes (λ old new. (IsTrue stands
            → (new ≡ old) × (old.stands ≡ true)) × ((stands ≡ false) → new ≡ after_move old))
            (state self.old) (state self.new)) }
        ensures err { OnErr result (Changes IsLeft (state self.old) (state self.new)) };
}
