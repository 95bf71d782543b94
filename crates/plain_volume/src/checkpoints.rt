ghost use Rattle.std.specs.Prelude.{◌≡◌, None, [], IfOk, true};
ghost use Rattle.std.specs.List.{list_any};
ghost use Rattle.object_stream.specs.Stream.{is_own};
ghost use Rattle.object_stream.specs.Plain.{stream_of, numbers_of};
ghost use Rattle.plain_disk.specs.Removals.{maps};
ghost use Rattle.plain_volume.specs.Fields.{checkpoint_with, owned_in, last_landed};

use crate::landed::has_landed;
use crate::plans::is_own;
use object_stream::{Owner, PlainStream};
use std::alloc::{AllocError, Global};
use std::marker::Model;
use upload_window::OpenObject;

/// A checkpoint: its number, and the owners of the volume's sectors that it holds.
#[derive(Drop)]
pub(crate) struct Checkpoint {
    number: u64,
    owned: Vec<Option<Owner>>,
}

impl Model for Checkpoint {
    ghost use Rattle.plain_disk.specs.State.{PlainCheckpoint};

    ghost Value = { PlainCheckpoint };

    ghost view = { λ c. record { number = c.number; owned = c.owned.items } };
}

impl Checkpoint {
    /// That of a volume that was just created, which is its first object.
    pub(crate) fn created(alloc: Global) -> Checkpoint
        ensures { result ≡ checkpoint_with 1 [] }
    {
        Checkpoint {
            number: 1,
            owned: Vec::new(alloc),
        }
    }

    /// The one of this number in the stream of a volume of so many sectors. The one error is that memory ran
    /// out.
    pub(crate) fn at(
        alloc: Global,
        stream: &PlainStream,
        number: u64,
        sectors: u64,
    ) -> Result<Checkpoint, AllocError>
        ensures { IfOk result (λ checkpoint. checkpoint
            ≡ checkpoint_with number (owned_in (stream_of stream.now) sectors number)) }
    {
        let owned = owned_in(alloc, stream, number, sectors)?;
        Ok(Checkpoint { number, owned })
    }

    /// The same checkpoint again. The one error is that memory ran out.
    pub(crate) fn copy(&self) -> Result<Checkpoint, AllocError>
        ensures { IfOk result (λ checkpoint. checkpoint ≡ self.now) }
    {
        let owned = Vec::from_slice(*self.owned.allocator(), self.owned.as_slice())?;
        Ok(Checkpoint {
            number: self.number,
            owned,
        })
    }

    /// Its number.
    pub(crate) fn number(&self) -> u64
        ensures { result ≡ self.now.number }
    {
        self.number
    }

    /// Whether it maps the object of this number.
    pub(crate) fn maps(&self, number: u64) -> bool
        ensures { result ≡ maps self.now number }
    {
        owns_any(self.owned.as_slice(), number)
    }
}

/// The owners of the first sectors after the objects up to a number. The one error is that memory ran out.
pub(crate) fn owned_in(
    alloc: Global,
    stream: &PlainStream,
    number: u64,
    sectors: u64,
) -> Result<Vec<Option<Owner>>, AllocError>
    ensures { IfOk result (λ owned. owned.items ≡ owned_in (stream_of stream.now) sectors number) }
{
    let mut owned = Vec::new(alloc);
    for sector in 0..sectors {
        owned.push(stream.owner(number, sector))?;
    }
    Ok(owned)
}

// Whether one of these owners is the volume's own object of this number.
fn owns_any(owned: &[Option<Owner>], number: u64) -> bool
    ensures { result ≡ list_any (is_own number) owned.now }
{
    for owner in owned {
        if is_own(number, *owner) {
            return true;
        }
    }
    false
}

/// The number of the last checkpoint among the objects; None where there is none.
pub(crate) fn last_checkpoint(objects: &[OpenObject]) -> Option<u64>
    ensures { result ≡ last_landed (λ number. true) None objects.now }
{
    let mut last = None;
    for object in objects {
        last = if object.is_checkpoint {
            Some(object.number)
        } else {
            last
        };
    }
    last
}

/// The number of the last checkpoint among the objects that has landed; None where there is none.
pub(crate) fn last_landed(landed: &[bool], objects: &[OpenObject]) -> Option<u64>
    ensures { result ≡ last_landed (numbers_of landed.now) None objects.now }
{
    let mut last = None;
    for object in objects {
        last = if object.is_checkpoint && has_landed(landed, object.number) {
            Some(object.number)
        } else {
            last
        };
    }
    last
}
