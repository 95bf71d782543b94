ghost use Rattle.std.specs.Prelude.{◌≡◌, List};
ghost use Rattle.lsvd_device.specs.Medium.{Medium, after_write, after_sync};
ghost use Rattle.lsvd_device.specs.Device.{moments_after};

/// What a gathering disk tells of what it holds now and held before. The disk below cannot tell it, since it
/// does not see a write before that is handed over.
pub trait Moments: Drop {
    /// The moments; none where none are kept.
    ghost told: { Self → List Medium };

    /// The whole of `piece` was written from `at` on.
    fn note_write(&mut self, at: u64, piece: &[u8])
        ensures { told self.new ≡ moments_after (after_write at piece.now) (told self.old) };

    /// What was written before was synced.
    fn note_sync(&mut self)
        ensures { told self.new ≡ moments_after after_sync (told self.old) };
}

/// Keeps no moments: the disk tells nothing of what it holds, as one over a file does not.
#[derive(Clone, Copy, Debug)]
pub struct Untold;

impl Moments for Untold {
    ghost use Rattle.std.specs.Prelude.{[]};

    ghost told = { λ _. [] };

    fn note_write(&mut self, _: u64, _: &[u8]) {}

    fn note_sync(&mut self) {}
}
