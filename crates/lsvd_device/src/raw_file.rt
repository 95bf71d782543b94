ghost use Rattle.std.specs.Prelude.{◌≡◌, ◌+◌, ◌≤◌, ◌⊎◌, length, take, drop, Option, IfOk, IfSome, OnOk};
ghost use Rattle.std.specs.Prelude.{OnErr};
ghost use Rattle.lsvd_device.specs.Medium.{after_write};
ghost use Rattle.lsvd_device.specs.RawFile.{RawState, IsSized, Alters, moved_on, FailsInside, after_cut};
ghost use Rattle.lsvd_device.specs.RawFile.{extended, ExtendsPart, after_raw_sync, doubted_raw, named_raw};

use std::io;

/// An open file of the operating system, which is used as a disk. It is closed where it is dropped.
///
/// A call that failed may have done its part or not. After a sync that failed the file still reads as before,
/// and no later sync is trusted.
pub trait RawFile: Drop {
    /// What it holds and what a stop may leave of it, where it tells that.
    ghost state: { Self → Option RawState };

    /// How many bytes it has. That outlasts a stop already (a condition), so that no length is told which a
    /// stop may take back.
    fn size(&self) -> io::Result<u64>
        requires { IfSome (state self.now) IsSized }
        ensures { IfOk result (λ size. IfSome (state self.now)
            (λ (file : RawState). size ≡ length file.now.bytes)) };

    /// Reads the bytes from `at` on into the whole of `buf`. It fails where the file ends before, and any
    /// bytes stand in `buf` then.
    fn read_at(&self, at: u64, buf: &mut [u8]) -> io::Result<()>
        ensures { OnOk result (IfSome (state self.now) (λ (file : RawState).
            buf.new ≡ take (length buf.old) (drop at file.now.bytes))) };

    /// Writes the whole of `piece` from `at` on. The range lies inside the file (a condition).
    fn write_at(&mut self, at: u64, piece: &[u8]) -> io::Result<()>
        requires { IfSome (state self.old) (λ (file : RawState).
            at + length piece.now ≤ length file.now.bytes) }
        ensures ok { OnOk result (Alters (λ old new. new ≡ moved_on (after_write at piece.now) old)
            (state self.old) (state self.new)) }
        ensures err { OnErr result (Alters (FailsInside at (length piece.now)) (state self.old)
            (state self.new)) };

    /// Cuts it to no bytes.
    fn cut(&mut self) -> io::Result<()>
        ensures ok { OnOk result (Alters (λ old new. new ≡ after_cut old) (state self.old)
            (state self.new)) }
        ensures err { OnErr result (Alters (λ old new. (new ≡ old) ⊎ (new ≡ after_cut old))
            (state self.old) (state self.new)) };

    /// Adds the whole of `piece` at its end, which is at `at` (a condition).
    fn add_at(&mut self, at: u64, piece: &[u8]) -> io::Result<()>
        requires { IfSome (state self.old) (λ (file : RawState). at ≡ length file.now.bytes) }
        ensures ok { OnOk result (Alters (λ old new. new ≡ extended piece.now old) (state self.old)
            (state self.new)) }
        ensures err { OnErr result (Alters (ExtendsPart piece.now) (state self.old) (state self.new)) };

    /// Makes its bytes and its length outlast a stop.
    fn sync_all(&mut self) -> io::Result<()>
        ensures ok { OnOk result (Alters (λ old new. new ≡ after_raw_sync old) (state self.old)
            (state self.new)) }
        ensures err { OnErr result (Alters (λ old new. new ≡ doubted_raw old) (state self.old)
            (state self.new)) };

    /// Makes its bytes outlast a stop. Its length does so already (a condition).
    fn sync_data(&mut self) -> io::Result<()>
        requires { IfSome (state self.old) IsSized }
        ensures ok { OnOk result (Alters (λ old new. new ≡ after_raw_sync old) (state self.old)
            (state self.new)) }
        ensures err { OnErr result (Alters (λ old new. new ≡ doubted_raw old) (state self.old)
            (state self.new)) };

    /// Makes its name outlast a stop, wherever links lead to it. Its length does so already (a condition), so
    /// that the name leads to bytes that do.
    fn sync_name(&mut self) -> io::Result<()>
        requires { IfSome (state self.old) IsSized }
        ensures ok { OnOk result (Alters (λ old new. new ≡ named_raw old) (state self.old)
            (state self.new)) }
        ensures err { OnErr result (state self.new ≡ state self.old) };

    /// Says that `len` bytes from `at` on will be needed soon. It is advice, and changes nothing.
    fn will_need(&self, at: u64, len: u64);

    /// Says that what the system has of it in memory is not needed. It is advice, and changes nothing.
    fn forget(&self);
}
