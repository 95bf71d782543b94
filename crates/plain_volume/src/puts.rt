ghost use Rattle.std.specs.Prelude.{◌≡◌, nat_lt, position};
ghost use Rattle.std.specs.List.{list_any};
ghost use Rattle.upload_window.specs.Window.{has_number, is_ready, lowest_ready, is_started, with_started};
ghost use Rattle.upload_window.specs.Window.{without, below_lowest};
ghost use Rattle.plain_disk.specs.Checkpoints.{is_started_checkpoint};

use upload_window::OpenObject;

// Whether the object's put is not under way and, where it is a checkpoint, no lower number is open.
fn is_ready(objects: &[OpenObject], object: &OpenObject) -> bool
    ensures { result ≡ is_ready objects.now object.now }
{
    !object.is_started && (!object.is_checkpoint || !has_lower(objects, object.number))
}

// Whether a lower number is open.
fn has_lower(objects: &[OpenObject], number: u64) -> bool
    ensures { result ≡ list_any (λ other. nat_lt other.number number) objects.now }
{
    for other in objects {
        if other.number < number {
            return true;
        }
    }
    false
}

/// The lowest number of an object that may be put; None where there is none.
pub(crate) fn lowest_ready(objects: &[OpenObject]) -> Option<u64>
    ensures { result ≡ lowest_ready objects.now }
{
    for object in objects {
        if is_ready(objects, object) {
            return Some(object.number);
        }
    }
    None
}

/// Whether the put of this number is under way.
pub(crate) fn is_started(objects: &[OpenObject], number: u64) -> bool
    ensures { result ≡ is_started number objects.now }
{
    objects
        .iter()
        .any(|object| object.number == number && object.is_started)
}

/// Whether the object of this number is a checkpoint whose put is under way.
pub(crate) fn is_started_checkpoint(objects: &[OpenObject], number: u64) -> bool
    ensures { result ≡ is_started_checkpoint number objects.now }
{
    objects.iter().any(|object| object.number == number
        && object.is_started
        && object.is_checkpoint)
}

// The place of the object of this number.
fn place_of(objects: &[OpenObject], number: u64) -> Option<usize>
    ensures { result ≡ position (has_number number) objects.now }
{
    objects.iter().position(|object| object.number == number)
}

/// Says of the object of this number that its put is under way, or that it is ready.
pub(crate) fn mark(objects: &mut [OpenObject], number: u64, is_started: bool)
    ensures { objects.new ≡ with_started number is_started objects.old }
{
    if let Some(place) = place_of(objects, number) {
        let object = &mut objects[place];
        object.is_started = is_started;
        object.was_started |= is_started;
    }
}

/// Takes the object of this number out.
pub(crate) fn remove(objects: &mut Vec<OpenObject>, number: u64)
    ensures { objects.new.items ≡ without number objects.old.items }
{
    if let Some(place) = place_of(objects.as_slice(), number) {
        objects.remove(place);
    }
}

/// The number below the lowest that is open, or the last one where none is.
pub(crate) fn frontier(objects: &[OpenObject], last: u64) -> u64
    ensures { result ≡ below_lowest objects.now last }
{
    match objects.first() {
        Some(object) => object.number.saturating_sub(1),
        None => last,
    }
}
