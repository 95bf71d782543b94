use crate::step::Byte;
use std::fmt;

// The most sectors of a read here, and the most objects of one.
const MOST: usize = 8;

/// What a volume answers.
#[derive(Clone, Copy, Debug, PartialEq, Eq)]
pub enum Answer {
    Entered(u64),
    Flushed(u64),
    /// The length of the history at the look, and the objects that are pinned.
    Planned(u64, Objects),
    Data(Sectors),
    Released,
    Sealed(u64),
    Taken(u64),
    /// The frontier.
    Done(u64),
    Returned,
    Removing(u64),
    Removed,
    GivenBack,
    Told {
        writes: u64,
        sealed: u64,
        frontier: u64,
        checkpoint: u64,
    },
    BatchFull(u64),
    EntriesFull(u64),
    NoRoom {
        need: u64,
        free: u64,
    },
    Range,
    Nothing,
    Busy,
    Fault,
    OutOfMemory,
    Count(u64),
    IsStopping(bool),
    /// How many entries a mount finds, and the last object.
    Mounted(u64, u64),
    /// What was handed in came back.
    Back,
    /// This volume is not asked.
    NotAsked,
}

/// The bytes of sectors that are filled with one each. One that is not is shown as ff.
#[derive(Clone, Copy, PartialEq, Eq)]
pub struct Sectors {
    count: usize,
    bytes: [u8; MOST],
}

impl Sectors {
    /// Those of a read.
    pub fn of(read: &[u8]) -> Sectors {
        let mut bytes = [0; MOST];
        for (k, byte) in bytes.iter_mut().enumerate() {
            *byte = filled_with(sector_in(read, k));
        }
        Sectors {
            count: read.len() / 512,
            bytes,
        }
    }
}

impl fmt::Debug for Sectors {
    fn fmt<W: fmt::Write>(&self, f: &mut fmt::Formatter<W>) -> fmt::Result {
        for byte in self.bytes.get(..self.count).unwrap_or(&[]) {
            write!(f, "{:?} ", Byte(*byte))?;
        }
        write!(f, "x512")
    }
}

// A sector of a read, and nothing past its end.
fn sector_in(read: &[u8], k: usize) -> &[u8] {
    let from = k.wrapping_mul(512);
    read.get(from..from.wrapping_add(512)).unwrap_or(&[])
}

/// The byte that sectors are filled with.
pub fn filled_with(sectors: &[u8]) -> u8 {
    let first = sectors.first().copied().unwrap_or(0xff);
    if sectors.iter().all(|byte| *byte == first) {
        first
    } else {
        0xff
    }
}

/// Numbers of objects.
#[derive(Clone, Copy, PartialEq, Eq)]
pub struct Objects {
    count: usize,
    numbers: [u64; MOST],
}

impl Objects {
    /// These.
    pub fn of(objects: &[u64]) -> Objects {
        let mut numbers = [0; MOST];
        for (k, number) in numbers.iter_mut().enumerate() {
            *number = objects.get(k).copied().unwrap_or(0);
        }
        Objects {
            count: objects.len(),
            numbers,
        }
    }
}

impl fmt::Debug for Objects {
    fn fmt<W: fmt::Write>(&self, f: &mut fmt::Formatter<W>) -> fmt::Result {
        write!(f, "objects")?;
        for number in self.numbers.get(..self.count).unwrap_or(&[]) {
            write!(f, " {number}")?;
        }
        Ok(())
    }
}
