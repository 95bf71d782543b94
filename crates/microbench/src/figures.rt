use std::fmt;

/// What is measured of writes and of what comes after them.
#[derive(Clone, Copy, Default)]
pub struct Figures {
    /// The nanoseconds of each write, of each turn of a collection, and of each drain.
    pub writes: Samples,
    pub turns: Samples,
    pub drains: Samples,
    /// The bytes that the store held, before each drain and after it.
    pub held: Samples,
    /// The bytes that were put into it, and how many gets were asked of it.
    pub put: u64,
    pub gets: u64,
}

impl Figures {
    /// The nanoseconds of one write with its share of all else.
    pub fn time_of_write(&self) -> u64 {
        let whole = self.writes.sum.wrapping_add(self.turns.sum);
        whole.wrapping_add(self.drains.sum) / self.writes.count.max(1)
    }
}

/// Numbers that were seen.
#[derive(Clone, Copy, Default)]
pub struct Samples {
    pub greatest: u64,
    pub sum: u64,
    pub count: u64,
}

impl Samples {
    /// Takes one number more.
    pub fn take(&mut self, number: u64) {
        self.greatest = self.greatest.max(number);
        self.sum = self.sum.wrapping_add(number);
        self.count = self.count.wrapping_add(1);
    }

    /// Their mean, rounded down, and 0 of none.
    pub fn mean(&self) -> u64 {
        self.sum / self.count.max(1)
    }
}

/// How often a number has another, rounded down to hundredths.
#[derive(Clone, Copy)]
pub struct Ratio {
    hundredths: u64,
}

impl Ratio {
    /// That of two numbers, of which the other is not 0.
    pub fn of(number: u64, other: u64) -> Ratio {
        Ratio {
            hundredths: number.wrapping_mul(100) / other.max(1),
        }
    }
}

impl fmt::Display for Ratio {
    fn fmt<W: fmt::Write>(&self, f: &mut fmt::Formatter<W>) -> fmt::Result {
        let (whole, rest) = (self.hundredths / 100, self.hundredths % 100);
        write!(f, "{whole}.{rest:02}")
    }
}
