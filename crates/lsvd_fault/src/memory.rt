ghost use Rattle.std.specs.Prelude.{◌≡◌, ◌<◌, ◌+◌, ◌-◌, ◌^◌, min, Some, []};
ghost use Rattle.lsvd_fault.specs.Memory.{SourceState, SinkState, LinkState};

use crate::stream::{Failed, Link, Sink, Source};
use std::alloc::Global;
use std::marker::Model;

// The call of an end in memory that is to fail, if any: 0 is the next one.
#[derive(Clone, Copy, Debug, PartialEq, Eq)]
struct Schedule {
    failing: Option<u64>,
}

impl Schedule {
    const NEVER: Schedule = Schedule { failing: None };

    // Whether the call that comes now is to fail.
    fn fails_now(&mut self) -> bool {
        match self.failing {
            None => false,
            Some(0) => {
                self.failing = None;
                true
            }
            Some(later) => {
                self.failing = Some(later - 1);
                false
            }
        }
    }
}

/// A source over bytes in memory. It fails only where `failing_at` says so.
#[derive(Debug, Drop)]
pub struct MemSource {
    bytes: Vec<u8>,
    at: usize,
    most: usize,
    schedule: Schedule,
    faults: u64,
}

impl Model for MemSource {
    ghost use Rattle.std.specs.Prelude.{◌≤◌, ◌<◌, drop, length};
    ghost use Rattle.lsvd_fault.specs.Memory.{SourceState};

    ghost Value = { SourceState };

    ghost view = { λ s. record { left = drop s.at s.bytes.items; faults = s.faults } };

    ghost invariant = { λ s. (s.at ≤ length s.bytes.items) × (0 < s.most) };
}

impl MemSource {
    /// A source that gives these bytes, in reads as long as the caller has room for. It has no fault yet.
    pub fn new(bytes: Vec<u8>) -> MemSource
        ensures left { result.left ≡ bytes.items }
        ensures faults { result.faults ≡ 0 }
    {
        MemSource {
            bytes,
            at: 0,
            most: usize::MAX,
            schedule: Schedule::NEVER,
            faults: 0,
        }
    }

    /// The same source, where each read gives at most `most` bytes. A later call replaces the limit.
    pub fn in_pieces(mut self, most: usize) -> MemSource
        requires { 0 < most }
        ensures { result ≡ self }
    {
        self.most = most;
        self
    }

    /// The same source, where the read of this number from now on fails; 0 is the next one. That read takes
    /// nothing and is counted, and the one after it goes on. A later call replaces the number.
    pub fn failing_at(mut self, call: u64) -> MemSource
        ensures { result ≡ self }
    {
        self.schedule.failing = Some(call);
        self
    }
}

impl Source for MemSource {
    ghost remaining = { λ s. Some s.left };

    ghost faults = { λ s. s.faults };

    fn read(&mut self, buf: &mut [u8]) -> Result<usize, Failed> {
        if self.schedule.fails_now() {
            self.faults = self.faults.saturating_add(1);
            return Err(Failed);
        }
        let left = &self.bytes[self.at..];
        let count = buf.len().min(self.most).min(left.len());
        buf[..count].copy_from_slice(&left[..count]);
        self.at += count;
        Ok(count)
    }

    fn faults(&self) -> u64 {
        self.faults
    }
}

/// A sink that keeps what it takes in memory. It fails where `failing_at` says so, and where memory for
/// the bytes runs out.
#[derive(Debug, Drop)]
pub struct MemSink {
    bytes: Vec<u8>,
    most: usize,
    schedule: Schedule,
    faults: u64,
}

impl Model for MemSink {
    ghost use Rattle.std.specs.Prelude.{◌<◌};
    ghost use Rattle.lsvd_fault.specs.Memory.{SinkState};

    ghost Value = { SinkState };

    ghost view = { λ s. record { taken = s.bytes.items; faults = s.faults } };

    ghost invariant = { λ s. 0 < s.most };
}

impl MemSink {
    /// A sink that has taken nothing and has no fault yet.
    pub fn new(alloc: Global) -> MemSink
        ensures taken { result.taken ≡ [] }
        ensures faults { result.faults ≡ 0 }
    {
        MemSink {
            bytes: Vec::new(alloc),
            most: usize::MAX,
            schedule: Schedule::NEVER,
            faults: 0,
        }
    }

    /// The same sink, where each write takes at most `most` bytes. A later call replaces the limit.
    pub fn in_pieces(mut self, most: usize) -> MemSink
        requires { 0 < most }
        ensures { result ≡ self }
    {
        self.most = most;
        self
    }

    /// The same sink, where the write of this number from now on fails; 0 is the next one. That write takes
    /// nothing and is counted, and the one after it goes on. A later call replaces the number.
    pub fn failing_at(mut self, call: u64) -> MemSink
        ensures { result ≡ self }
    {
        self.schedule.failing = Some(call);
        self
    }

    /// All the bytes that it took so far, in the order of the writes.
    pub fn bytes(&self) -> &[u8]
        ensures { result.now ≡ self.now.taken }
    {
        self.bytes.as_slice()
    }
}

impl Sink for MemSink {
    ghost contents = { λ s. Some s.taken };

    ghost faults = { λ s. s.faults };

    fn write(&mut self, piece: &[u8]) -> Result<usize, Failed> {
        let count = piece.len().min(self.most);
        let failed = self.schedule.fails_now()
            || self.bytes.extend_from_slice(&piece[..count]).is_err();
        if failed {
            self.faults = self.faults.saturating_add(1);
            return Err(Failed);
        }
        Ok(count)
    }

    fn faults(&self) -> u64 {
        self.faults
    }
}

/// A link over a source and a sink in memory, which fails where one of them does.
#[derive(Debug, Drop)]
pub struct MemLink {
    incoming: MemSource,
    outgoing: MemSink,
}

impl Model for MemLink {
    ghost use Rattle.std.specs.Prelude.{◌+◌, ◌-◌, ◌^◌, min};
    ghost use Rattle.lsvd_fault.specs.Memory.{LinkState};

    ghost Value = { LinkState };

    ghost view = { λ l. record {
      left = l.incoming.left;
      taken = l.outgoing.taken;
      faults = min (l.incoming.faults + l.outgoing.faults) (2 ^ 64 - 1);
    } };
}

impl MemLink {
    /// A link that reads from the one and writes to the other. Its count of faults is the sum of theirs, and
    /// stands at the greatest number of its type.
    pub fn new(incoming: MemSource, outgoing: MemSink) -> MemLink
        ensures left { result.left ≡ incoming.left }
        ensures taken { result.taken ≡ outgoing.taken }
        ensures faults { result.faults ≡ min (incoming.faults + outgoing.faults) (2 ^ 64 - 1) }
    {
        MemLink { incoming, outgoing }
    }

    /// All the bytes that its outgoing side took so far, in the order of the writes.
    pub fn bytes(&self) -> &[u8]
        ensures { result.now ≡ self.now.taken }
    {
        self.outgoing.bytes()
    }
}

impl Source for MemLink {
    ghost remaining = { λ l. Some l.left };

    ghost faults = { λ l. l.faults };

    ghost written = { λ l. Some l.taken };

    fn read(&mut self, buf: &mut [u8]) -> Result<usize, Failed> {
        self.incoming.read(buf)
    }

    fn faults(&self) -> u64 {
        self.incoming.faults.saturating_add(self.outgoing.faults)
    }
}

impl Sink for MemLink {
    ghost contents = { λ l. Some l.taken };

    ghost faults = { λ l. l.faults };

    ghost unread = { λ l. Some l.left };

    fn write(&mut self, piece: &[u8]) -> Result<usize, Failed> {
        self.outgoing.write(piece)
    }

    fn faults(&self) -> u64 {
        self.incoming.faults.saturating_add(self.outgoing.faults)
    }
}

impl Link for MemLink {
    ghost use Rattle.std.proofs.Common.{refl};

    fn holds_back(&self, _: usize, _: usize) -> bool {
        false
    }

    ghost one_count = { λ _. refl };

    ghost one_output = { λ _. refl };

    ghost one_input = { λ _. refl };
}
