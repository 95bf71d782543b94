ghost use Rattle.std.specs.Prelude.{◌≡◌, Some, [], All, false};
ghost use Rattle.lsvd_listen.specs.Memory.{MemListenerState};

use crate::listener::Listener;
use lsvd_fault::{Failed, MemLink};
use std::collections::VecDeque;
use std::marker::Model;

/// A listener over links in memory, which it gives in their order; after the last one it is closed. It fails
/// only where `failing_at` says so.
#[derive(Debug, Drop)]
pub struct MemListener {
    links: VecDeque<MemLink>,
    /// The call that is to fail, if any: 0 is the next one.
    failing: Option<u64>,
    given: u64,
    closed: bool,
    faults: u64,
}

impl Model for MemListener {
    ghost use Rattle.std.specs.Prelude.{◌≡◌, [], All, IsTrue};
    ghost use Rattle.lsvd_listen.specs.Memory.{MemListenerState};

    ghost Value = { MemListenerState };

    ghost view = { λ l. record {
      left = l.links.items;
      given = l.given;
      closed = l.closed;
      faults = l.faults;
    } };

    ghost invariant = { λ l. (IsTrue l.closed → l.links.items ≡ [])
        × All (λ link. link.taken ≡ []) l.links.items };
}

impl MemListener {
    /// A listener that gives these links, the first of them first. It has given none, and has no fault yet.
    /// Nothing was written to any of them (a condition).
    pub fn new(links: Vec<MemLink>) -> MemListener
        requires { All (λ link. link.taken ≡ []) links.items }
        ensures left { result.left ≡ links.items }
        ensures given { result.given ≡ 0 }
        ensures closed { result.closed ≡ false }
        ensures faults { result.faults ≡ 0 }
    {
        MemListener {
            links: VecDeque::from(links),
            failing: None,
            given: 0,
            closed: false,
            faults: 0,
        }
    }

    /// The same listener, where the accept of this number from now on fails; 0 is the next one. That accept
    /// takes no link and is counted, and the one after it goes on. A later call replaces the number.
    pub fn failing_at(mut self, call: u64) -> MemListener
        ensures { result ≡ self }
    {
        self.failing = Some(call);
        self
    }

    // Whether the call that comes now is to fail.
    fn fails_now(&mut self) -> bool
        ensures { self.new ≡ self.old }
    {
        let planned = self.failing;
        self.failing = planned.and_then(|calls| calls.checked_sub(1));
        planned == Some(0)
    }
}

impl Listener for MemListener {
    type Link = MemLink;

    ghost given = { λ l. l.given };

    ghost closed = { λ l. l.closed };

    ghost faults = { λ l. l.faults };

    ghost coming = { λ l. Some l.left };

    fn accept(&mut self) -> Result<Option<MemLink>, Failed> {
        if self.fails_now() {
            self.faults = self.faults.saturating_add(1);
            return Err(Failed);
        }
        let next = self.links.pop_front();
        if next.is_some() {
            self.given = self.given.saturating_add(1);
        } else {
            self.closed = true;
        }
        Ok(next)
    }

    fn given(&self) -> u64 {
        self.given
    }

    fn closed(&self) -> bool {
        self.closed
    }

    fn faults(&self) -> u64 {
        self.faults
    }
}
