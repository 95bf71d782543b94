ghost use Rattle.std.specs.Prelude.{◌≡◌, ◌+◌, ◌≤◌, ◌<◌, [], false, true, length, is_ok, if◌then◌else◌, IfOk};
ghost use Rattle.std.specs.Prelude.{OnOk, MatchOption, Some};
ghost use Rattle.std.specs.List.{slice_get, insert, remove};
ghost use Rattle.replay_rig.specs.Puts.{put_of, is_put_out, with_begun, with_failed, without_put, IsPutOut};
ghost use Rattle.replay_rig.specs.Puts.{IsJobTaken, lowest_out};
ghost use Rattle.replay_rig.specs.Places.{place_of_put, stands_at_place};

use lsvd_base::ObjectBytes;
use std::alloc::{AllocError, Global};
use std::marker::Model;
use vol_core::Job;

/// What is kept of an object under way.
#[derive(Drop)]
enum Held {
    /// The job of its put, which is out.
    Out(Job),
    /// Its bytes, whose put failed.
    Failed(ObjectBytes),
}

/// An object under way: a put of it was ever begun, and it is not acknowledged.
#[derive(Drop)]
pub(crate) struct Put {
    number: u64,
    held: Held,
}

impl Model for Put {
    ghost use Rattle.replay_rig.specs.Puts.{PutView};

    ghost Value = { PutView };

    ghost use Rattle.replay_rig.specs.Held.{bytes_held, is_held_out, IsHeldFor};

    ghost view = { λ p. record {
      number = p.number;
      bytes = bytes_held p.held;
      is_out = is_held_out p.held;
    } };

    ghost invariant = { λ p. IsHeldFor p.number p.held };
}

impl Put {
    // One whose put is out by this job.
    fn out(job: Job) -> Put
        ensures { result ≡ record { number = job.name.number; bytes = job.bytes; is_out = true } }
    {
        Put {
            number: job.name().number,
            held: Held::Out(job),
        }
    }

    // One whose put failed.
    fn failed(number: u64, object: ObjectBytes) -> Put
        ensures { result ≡ record { number = number; bytes = object; is_out = false } }
    {
        Put {
            number,
            held: Held::Failed(object),
        }
    }

    /// The number of the object.
    pub(crate) fn number(&self) -> u64
        ensures { result ≡ self.now.number }
    {
        self.number
    }

    /// Its bytes.
    pub(crate) fn object(&self) -> &ObjectBytes
        ensures { result.now ≡ self.now.bytes }
    {
        match &self.held {
            Held::Out(job) => job.object(),
            Held::Failed(object) => object,
        }
    }

    // Whether its put is out.
    fn is_out(&self) -> bool
        ensures { result ≡ self.now.is_out }
    {
        matches!(self.held, Held::Out(_))
    }

    // The job of its put, where that is out.
    fn into_job(self) -> Option<Job>
        ensures { MatchOption result (self.is_out ≡ false)
            (λ job. (job.name.number ≡ self.number) × (job.bytes ≡ self.bytes) × (self.is_out ≡ true)) }
    {
        match self.held {
            Held::Out(job) => Some(job),
            Held::Failed(_) => None,
        }
    }
}

/// The objects under way, in ascending order of their numbers.
#[derive(Drop)]
pub(crate) struct Puts {
    list: Vec<Put>,
}

impl Model for Puts {
    ghost use Rattle.std.specs.Prelude.{◌-◌, vec_len, vec_capacity};
    ghost use Rattle.replay_rig.specs.Puts.{PutsState};

    ghost Value = { PutsState };

    ghost view = { λ p. record { list = p.list.items; room = vec_capacity p.list - vec_len p.list } };
}

impl Puts {
    /// None.
    pub(crate) fn new(alloc: Global) -> Puts
        ensures { result.list ≡ [] }
    {
        Puts {
            list: Vec::new(alloc),
        }
    }

    /// How many there are.
    pub(crate) fn len(&self) -> usize
        ensures { result ≡ length self.now.list }
    {
        self.list.len()
    }

    /// They.
    pub(crate) fn as_slice(&self) -> &[Put]
        ensures { result.now ≡ self.now.list }
    {
        self.list.as_slice()
    }

    // Where the first object stands whose number is not below this one.
    fn place_of(&self, number: u64) -> usize
        ensures { result ≡ place_of_put number self.now.list }
    {
        self.list
            .iter()
            .position(|put| number <= put.number())
            .unwrap_or(self.list.len())
    }

    // Whether the object at a place has this number.
    fn is_at(&self, place: usize, number: u64) -> bool
        ensures { result ≡ stands_at_place place number self.now.list }
    {
        match self.list.get(place) {
            Some(put) => put.number() == number,
            None => false,
        }
    }

    // Takes an object from its place, which is one of the list (a condition).
    fn take(&mut self, place: usize) -> Put
        requires { place < length self.old.list }
        ensures put { slice_get self.old.list place ≡ Some result }
        ensures list { self.new.list ≡ remove self.old.list place }
        ensures room { self.new.room ≡ self.old.room + 1 }
    {
        self.list.remove(place)
    }

    // Puts an object at a place. There is memory for it (a condition).
    fn keep(&mut self, place: usize, put: Put)
        requires place { place ≤ length self.old.list }
        requires room { 1 ≤ self.old.room }
        ensures { self.new.list ≡ insert self.old.list place put }
    {
        if self.list.insert(place, put).is_err() {
            // There was memory for it.
            prove!(false);
        }
    }

    /// Takes memory for one more.
    pub(crate) fn reserve(&mut self) -> Result<(), AllocError>
        ensures room { OnOk result (1 ≤ self.new.room) }
        ensures list { self.new.list ≡ self.old.list }
    {
        self.list.reserve(1)
    }

    /// A put began, by this job. There is memory for one more (a condition).
    pub(crate) fn begin(&mut self, job: Job)
        requires { 1 ≤ self.old.room }
        ensures { self.new.list ≡ with_begun job.name.number job.bytes self.old.list }
    {
        let number = job.name().number;
        let place = self.place_of(number);
        if self.is_at(place, number) {
            drop(self.take(place));
        }
        self.keep(place, Put::out(job));
    }

    /// Whether the put of this number is out.
    pub(crate) fn is_out(&self, number: u64) -> bool
        ensures { result ≡ is_put_out (put_of number self.now.list) }
    {
        let place = self.place_of(number);
        match self.list.get(place) {
            Some(put) => put.number() == number && put.is_out(),
            None => false,
        }
    }

    /// The lowest number whose put is out, if one is.
    pub(crate) fn lowest_out(&self) -> Option<u64>
        ensures { result ≡ lowest_out self.now.list }
    {
        let put = self.list.iter().find(|put| put.is_out())?;
        Some(put.number())
    }

    /// A further owner of the bytes of the put of this number, which is out (a condition).
    pub(crate) fn object(&self, number: u64) -> Result<ObjectBytes, AllocError>
        requires { is_put_out (put_of number self.now.list) ≡ true }
        ensures { IfOk result (λ object. IsPutOut number object self.now.list) }
    {
        let place = self.place_of(number);
        self.list[place].object().share()
    }

    /// The put of this number, which is out (a condition), failed: takes its job. The object stays under way.
    /// The one error is out of memory, after which nothing changed.
    pub(crate) fn fail(&mut self, number: u64) -> Result<Job, AllocError>
        requires { is_put_out (put_of number self.old.list) ≡ true }
        ensures ok { IfOk result (λ job. IsJobTaken number job self.old.list) }
        ensures list { self.new.list ≡ (if is_ok result then with_failed number self.old.list else
            self.old.list) }
    {
        let object = self.object(number)?;
        let place = self.place_of(number);
        let put = self.take(place);
        self.keep(place, Put::failed(number, object));
        Ok(put.into_job().unwrap())
    }

    /// The put of this number, which is out (a condition), is done: takes its job. The object is under way no
    /// more.
    pub(crate) fn finish(&mut self, number: u64) -> Job
        requires { is_put_out (put_of number self.old.list) ≡ true }
        ensures job { IsJobTaken number result self.old.list }
        ensures list { self.new.list ≡ without_put number self.old.list }
    {
        let place = self.place_of(number);
        self.take(place).into_job().unwrap()
    }
}
