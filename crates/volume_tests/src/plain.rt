use crate::answer::{Answer, Objects, Sectors};
use crate::real::GEOMETRY;
use crate::step::{Byte, Step};
use lsvd_base::Body;
use plain_disk::{ObjectNumbers, PlainEvent, PlainReply, PlannedRead};
use plain_volume::PlainVolume;
use std::alloc::{AllocError, Global};
use test_output::TestError;

/// The plain volume, with the read that is planned.
#[derive(Drop)]
pub struct Plain {
    volume: PlainVolume,
    data: Option<Body>,
    objects: Option<ObjectNumbers>,
}

impl Plain {
    /// A new one.
    pub fn new(alloc: Global) -> Plain {
        Plain {
            volume: PlainVolume::new(alloc, GEOMETRY),
            data: None,
            objects: None,
        }
    }

    /// Makes a step.
    pub fn make(&mut self, alloc: Global, step: Step) -> Result<Answer, TestError> {
        match step {
            Step::Look(lba, sectors) => self.look(lba, sectors),
            Step::Fetch => Ok(self.fetch()),
            Step::Release => self.release(),
            Step::Read(lba, sectors) => self.read(lba, sectors),
            _ => make(alloc, &mut self.volume, step),
        }
    }

    fn look(&mut self, lba: u64, sectors: u64) -> Result<Answer, TestError> {
        match self.volume.step(PlainEvent::Look { lba, sectors })? {
            PlainReply::Planned(read) => {
                let PlannedRead {
                    history_length,
                    data,
                    objects,
                } = read;
                let planned = Answer::Planned(history_length, Objects::of(objects.as_slice()));
                self.data = Some(data);
                self.objects = Some(objects);
                Ok(planned)
            }
            reply => Ok(answered_by(reply)),
        }
    }

    fn fetch(&self) -> Answer {
        match &self.data {
            Some(data) => Answer::Data(Sectors::of(data.as_bytes())),
            None => Answer::Nothing,
        }
    }

    fn release(&mut self) -> Result<Answer, TestError> {
        let Some(objects) = self.objects.take() else {
            return Ok(Answer::Nothing);
        };
        step(&mut self.volume, PlainEvent::Release { objects })
    }

    fn read(&mut self, lba: u64, sectors: u64) -> Result<Answer, TestError> {
        let looked = self.look(lba, sectors)?;
        if !matches!(looked, Answer::Planned(..)) {
            return Ok(looked);
        }
        let read = self.fetch();
        self.release()?;
        Ok(read)
    }
}

// Makes a step that is none of a read.
fn make(alloc: Global, volume: &mut PlainVolume, made: Step) -> Result<Answer, TestError> {
    match event_of(alloc, made)? {
        Some(event) => step(volume, event),
        None => Ok(stop(volume, made)?),
    }
}

// The event of a step, or none where the volume is stopped or looked at.
fn event_of(alloc: Global, step: Step) -> Result<Option<PlainEvent>, AllocError> {
    Ok(match step {
        Step::Write(lba, sectors, Byte(byte)) => {
            let body = Body::filled(alloc, sectors, byte)?;
            Some(PlainEvent::Write { lba, body })
        }
        Step::Zero(lba, sectors) => Some(PlainEvent::Zero { lba, sectors }),
        Step::Flush => Some(PlainEvent::Flush),
        Step::Seal => Some(PlainEvent::Seal),
        Step::Take => Some(PlainEvent::TakeJob),
        Step::Done(number) => Some(PlainEvent::JobDone { job: Some(number) }),
        Step::Failed(number) => Some(PlainEvent::JobFailed { job: Some(number) }),
        Step::Checkpoint => Some(PlainEvent::SealCheckpoint),
        Step::Remove => Some(PlainEvent::TakeRemove),
        Step::Removed(number) => Some(PlainEvent::RemoveDone { number }),
        Step::NotRemoved(number) => Some(PlainEvent::RemoveFailed { number }),
        Step::Status => Some(PlainEvent::Status),
        _ => None,
    })
}

fn step(volume: &mut PlainVolume, event: PlainEvent) -> Result<Answer, TestError> {
    Ok(answered_by(volume.step(event)?))
}

// What a reply says that is needed no longer.
fn answered_by(reply: PlainReply) -> Answer {
    let answer = answer_of(&reply);
    drop(reply);
    answer
}

// Stops the volume, or looks at what it has open.
fn stop(volume: &mut PlainVolume, step: Step) -> Result<Answer, AllocError> {
    Ok(match step {
        Step::Open => Answer::Count(volume.open_objects().len() as u64),
        Step::Pending => Answer::Count(volume.pending().len() as u64),
        Step::Stop(calls) => {
            volume.stop_after(calls);
            Answer::IsStopping(volume.is_stopping())
        }
        Step::Keep(landed, kept) => mounted(volume.crash_kept(landed, kept)?),
        Step::Lose(landed) => mounted(volume.crash_lost(landed)?),
        _ => Answer::NotAsked,
    })
}

fn mounted((count, number): (u64, u64)) -> Answer {
    Answer::Mounted(count, number)
}

// What a reply says.
fn answer_of(reply: &PlainReply) -> Answer {
    match reply {
        PlainReply::Entered(count) => Answer::Entered(*count),
        PlainReply::Flushed(count) => Answer::Flushed(*count),
        PlainReply::Planned(read) => Answer::Data(Sectors::of(read.data.as_bytes())),
        PlainReply::Released => Answer::Released,
        PlainReply::Sealed(number) => Answer::Sealed(*number),
        PlainReply::Taken(number) => Answer::Taken(*number),
        PlainReply::Done(frontier) => Answer::Done(*frontier),
        PlainReply::Returned => Answer::Returned,
        PlainReply::Removing(number) => Answer::Removing(*number),
        PlainReply::Removed => Answer::Removed,
        PlainReply::GivenBack => Answer::GivenBack,
        PlainReply::Told {
            writes,
            sealed,
            frontier,
            checkpoint,
        } => Answer::Told {
            writes: *writes,
            sealed: *sealed,
            frontier: *frontier,
            checkpoint: *checkpoint,
        },
        _ => refusal_of(reply),
    }
}

// Why nothing was done.
fn refusal_of(reply: &PlainReply) -> Answer {
    match reply {
        PlainReply::BatchFull(sectors) => Answer::BatchFull(*sectors),
        PlainReply::EntriesFull(entries) => Answer::EntriesFull(*entries),
        PlainReply::NoRoom { need, free } => Answer::NoRoom {
            need: *need,
            free: *free,
        },
        PlainReply::Range => Answer::Range,
        PlainReply::Nothing => Answer::Nothing,
        PlainReply::Busy => Answer::Busy,
        PlainReply::Fault => Answer::Fault,
        _ => Answer::NotAsked,
    }
}
