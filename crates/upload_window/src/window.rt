ghost use Rattle.std.specs.Prelude.{◌≡◌, ◌+◌, ◌-◌, ◌^◌, ◌<◌, ◌≤◌, ◌↔◌, [], length, true, false, IsTrue};
ghost use Rattle.std.specs.Prelude.{IsErr, IfSome, IfNone, OnOk, OnErr};
ghost use Rattle.upload_window.specs.Window.{IsInOrder, KeepsStarts, IsFrontier, below_open, lowest_ready};
ghost use Rattle.upload_window.specs.Window.{is_ready_number, is_started, was_started, entered, marked};
ghost use Rattle.upload_window.specs.Window.{acknowledged};

use crate::object::{
    OpenObject, is_started, number_may_start, place_of, place_of_ready, set_started, was_started,
};
use arrayvec::ArrayVec;
use std::marker::Model;
use thiserror::Error;

/// The window has no place for a further object.
#[derive(Clone, Copy, Debug, PartialEq, Eq, Error)]
#[error("too many objects are on their way to the store")]
pub struct Busy;

/// The objects on their way to the store.
///
/// Objects are numbered in the order in which they are sealed. One that was entered is ready, started (its
/// put is under way) or acknowledged; one whose put failed is ready again, and known to have been started.
/// Contracts see the last number that was entered and the open objects, those that are not acknowledged, in
/// ascending order.
#[derive(Drop)]
pub struct Window {
    last: u64,
    objects: ArrayVec<OpenObject, 16>,
}

impl Model for Window {
    ghost use Rattle.upload_window.specs.Window.{WindowState, IsWindow};

    ghost Value = { WindowState };

    ghost view = { λ w. record { last = w.last; objects = w.objects.items } };

    ghost invariant = { λ w. IsWindow (record { last = w.last; objects = w.objects.items }) };
}

impl Window {
    /// All numbers up to this one are acknowledged, and none is open.
    pub fn new(acknowledged: u64) -> Window
        ensures { result ≡ record { last = acknowledged; objects = [] } }
    {
        Window {
            last: acknowledged,
            objects: ArrayVec::new(),
        }
    }

    /// Enters an object, which is ready unless it is a checkpoint that waits. Its number is the one after the
    /// last, and below 2^64 - 1 (conditions). `Busy` comes where 16 objects are open; then nothing changes.
    pub fn enter(&mut self, number: u64, is_checkpoint: bool) -> Result<(), Busy>
        requires next { number ≡ self.old.last + 1 }
        requires limit { number < 2 ^ 64 - 1 }
        ensures busy { IsErr result ↔ (length self.old.objects ≡ 16) }
        ensures entered { OnOk result (self.new ≡ entered number is_checkpoint self.old) }
        ensures same { OnErr result (self.new ≡ self.old) }
    {
        if self.is_full() {
            return Err(Busy);
        }
        self.objects.push(OpenObject {
            number,
            is_checkpoint,
            is_started: false,
            was_started: false,
        });
        self.last = number;
        Ok(())
    }

    /// Starts the lowest ready object, that of `next`, and answers its number. None is where no object is
    /// ready; then nothing changes.
    pub fn take(&mut self) -> Option<u64>
        ensures lowest { result ≡ lowest_ready self.old.objects }
        ensures started { IfSome result (λ number. self.new ≡ marked number true self.old) }
        ensures same { IfNone result (self.new ≡ self.old) }
    {
        let number = self.next()?;
        set_started(self.objects.as_mut_slice(), number, true);
        Some(number)
    }

    /// The put of this number is done: it is acknowledged. False is for a number that is not started; then
    /// nothing changes.
    pub fn ack(&mut self, number: u64) -> bool
        ensures started { result ≡ is_started number self.old.objects }
        ensures acknowledged { IsTrue result → self.new ≡ acknowledged number self.old }
        ensures begun { IsTrue result → IsTrue (was_started number self.old.objects) }
        ensures same { result ≡ false → self.new ≡ self.old }
    {
        if !self.is_started(number) {
            return false;
        }
        if let Some(place) = place_of(self.objects.as_slice(), number) {
            self.objects.remove(place);
        }
        true
    }

    /// The put of this number failed: it is ready again, and `was_started` still answers true. False is for a
    /// number that is not started; then nothing changes.
    pub fn fail(&mut self, number: u64) -> bool
        ensures started { result ≡ is_started number self.old.objects }
        ensures ready { IsTrue result → self.new ≡ marked number false self.old }
        ensures same { result ≡ false → self.new ≡ self.old }
    {
        if !self.is_started(number) {
            return false;
        }
        set_started(self.objects.as_mut_slice(), number, false);
        true
    }

    /// Whether this number is open and ready: its put is not under way and, if it is a checkpoint, no lower
    /// number is open.
    pub fn ready(&self, number: u64) -> bool
        ensures { result ≡ is_ready_number number self.now.objects }
    {
        let objects = self.objects.as_slice();
        match objects.first() {
            Some(lowest) => number_may_start(objects, number, lowest.number),
            None => false,
        }
    }

    /// Whether this number is open and started: its put is under way.
    pub fn is_started(&self, number: u64) -> bool
        ensures { result ≡ is_started number self.now.objects }
    {
        is_started(self.objects.as_slice(), number)
    }

    /// Whether this number is open and a put of it was ever begun, also where it failed since.
    pub fn was_started(&self, number: u64) -> bool
        ensures { result ≡ was_started number self.now.objects }
    {
        was_started(self.objects.as_slice(), number)
    }

    /// The number that `take` would start: the lowest ready one; none where no object is ready.
    pub fn next(&self) -> Option<u64>
        ensures { result ≡ lowest_ready self.now.objects }
    {
        let objects = self.objects.as_slice();
        let lowest = objects.first()?.number;
        let place = place_of_ready(objects, lowest)?;
        Some(objects[place].number)
    }

    /// The frontier: the greatest number such that each from 1 to it is acknowledged.
    pub fn frontier(&self) -> u64
        ensures frontier { IsFrontier self.now result }
        ensures below { result ≡ below_open self.now }
    {
        match self.objects.as_slice().first() {
            Some(object) => object.number - 1,
            None => self.last,
        }
    }

    /// The greatest number that was entered.
    pub fn last(&self) -> u64
        ensures { result ≡ self.now.last }
    {
        self.last
    }

    /// Whether 16 objects are open, so that `enter` would answer `Busy`.
    pub fn is_full(&self) -> bool
        ensures is { IsTrue result ↔ (length self.now.objects ≡ 16) }
        ensures limit { length self.now.objects ≤ 16 }
    {
        self.objects.is_full()
    }

    /// How many objects are open, 16 at most.
    pub fn open(&self) -> usize
        ensures count { result ≡ length self.now.objects }
        ensures limit { result ≤ 16 }
        ensures order { IsInOrder self.now }
        ensures starts { KeepsStarts self.now }
    {
        self.objects.len()
    }
}
