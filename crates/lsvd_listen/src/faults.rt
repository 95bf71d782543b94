ghost use Rattle.std.specs.Prelude.{◌≡◌, ◌<◌, ◌↔◌, IsSome, is_err};
ghost use Rattle.std.specs.Result.{result_ok};
ghost use Rattle.lsvd_fault.specs.Faults.{Counts};

use lsvd_fault::Failed;
use std::io;
use std::marker::Model;

// How many calls have failed, and why the last of them did.
#[derive(Drop)]
pub(crate) struct Faults {
    count: u64,
    last_error: Option<io::Error>,
}

impl Model for Faults {
    ghost use Rattle.std.specs.Prelude.{ℕ, ◌<◌, ◌↔◌, IsSome};

    ghost Value = { ℕ };

    ghost view = { λ f. f.count };

    ghost invariant = { λ f. IsSome f.last_error ↔ (0 < f.count) };
}

impl Faults {
    // None has failed.
    pub(crate) fn new() -> Faults
        ensures { result ≡ 0 }
    {
        Faults {
            count: 0,
            last_error: None,
        }
    }

    pub(crate) fn count(&self) -> u64
        ensures { result ≡ self.now }
    {
        self.count
    }

    pub(crate) fn last_error(&self) -> Option<io::Error>
        ensures { IsSome result ↔ (0 < self.now) }
    {
        self.last_error
    }

    // Counts a call that failed, and keeps why.
    pub(crate) fn judge<T>(&mut self, outcome: io::Result<T>) -> Result<T, Failed>
        ensures value { result_ok result ≡ result_ok outcome }
        ensures count { Counts (is_err result) self.old self.new }
    {
        match outcome {
            Ok(value) => Ok(value),
            Err(error) => {
                self.count = self.count.saturating_add(1);
                self.last_error = Some(error);
                Err(Failed)
            }
        }
    }
}
