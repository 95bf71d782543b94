ghost use Rattle.std.specs.Prelude.{◌≡◌};

use std::marker::Model;

/// Numbers of objects, which contracts see as a list.
#[derive(Drop)]
pub struct ObjectNumbers {
    numbers: Vec<u64>,
}

impl Model for ObjectNumbers {
    ghost use Rattle.std.specs.Prelude.{ℕ, List};

    ghost Value = { List ℕ };

    ghost view = { λ o. o.numbers.items };
}

impl ObjectNumbers {
    /// These numbers.
    pub fn new(numbers: Vec<u64>) -> ObjectNumbers
        ensures { result ≡ numbers.items }
    {
        ObjectNumbers { numbers }
    }

    /// The numbers.
    pub fn as_slice(&self) -> &[u64]
        ensures { result.now ≡ self.now }
    {
        self.numbers.as_slice()
    }
}
