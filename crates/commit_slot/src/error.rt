ghost use Rattle.std.specs.Prelude.{◌≡◌};
ghost use Rattle.commit_slot.specs.declared.error.LoadError.TheVariants as load_errors;

use lsvd_fault::Failed;
use thiserror::Error;

/// Why commits were not loaded.
#[derive(Clone, Copy, Debug, PartialEq, Eq, Error)]
pub enum LoadError {
    /// No slot is open: the device, whose log has this many sectors, was not formatted to its end.
    #[error("no slot of the device is open")]
    NoSlot { log: u64 },
    /// A call of the device failed, and was counted by it.
    #[error("the device failed")]
    DeviceFault,
}

impl From<Failed> for LoadError {
    ghost from_gives = { λ _ e. e ≡ load_errors.DeviceFault };

    fn from(_: Failed) -> LoadError {
        LoadError::DeviceFault
    }
}
