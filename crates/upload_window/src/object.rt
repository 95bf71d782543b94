ghost use Rattle.std.specs.Prelude.{◌≡◌, position};
ghost use Rattle.upload_window.specs.Window.{has_number, is_started_with, is_started, was_started_with};
ghost use Rattle.upload_window.specs.Window.{was_started, with_started};
ghost use Rattle.upload_window.specs.Ready.{may_start, number_may_start};

/// An object that is not acknowledged.
#[derive(Clone, Copy, Default)]
pub struct OpenObject {
    /// Its number, from 1 on.
    pub number: u64,
    /// Whether it is a checkpoint, which waits for all lower numbers.
    pub is_checkpoint: bool,
    /// Whether its put is under way.
    pub is_started: bool,
    /// Whether a put of it was ever begun, also where it failed since.
    pub was_started: bool,
}

// Whether the object may be started, where the lowest open number is this one.
fn may_start(object: &OpenObject, lowest: u64) -> bool
    ensures { result ≡ may_start lowest object.now }
{
    !object.is_started && (!object.is_checkpoint || object.number <= lowest)
}

// Whether the number is open and its object may start, where the lowest open number is this one.
pub(crate) fn number_may_start(objects: &[OpenObject], number: u64, lowest: u64) -> bool
    ensures { result ≡ number_may_start number lowest objects.now }
{
    objects.iter().any(|object| object.number == number && may_start(object, lowest))
}

// Whether the object has this number and is started.
fn is_started_with(object: &OpenObject, number: u64) -> bool
    ensures { result ≡ is_started_with number object.now }
{
    object.number == number && object.is_started
}

// Whether the number is open and started.
pub(crate) fn is_started(objects: &[OpenObject], number: u64) -> bool
    ensures { result ≡ is_started number objects.now }
{
    objects.iter().any(|object| is_started_with(object, number))
}

// Whether the object has this number and was ever started.
fn was_started_with(object: &OpenObject, number: u64) -> bool
    ensures { result ≡ was_started_with number object.now }
{
    object.number == number && object.was_started
}

// Whether the number is open and was ever started.
pub(crate) fn was_started(objects: &[OpenObject], number: u64) -> bool
    ensures { result ≡ was_started number objects.now }
{
    objects
        .iter()
        .any(|object| was_started_with(object, number))
}

// The place of the object of this number.
pub(crate) fn place_of(objects: &[OpenObject], number: u64) -> Option<usize>
    ensures { result ≡ position (has_number number) objects.now }
{
    objects.iter().position(|object| object.number == number)
}

// The place of the first object that may start, where the lowest open number is this one.
pub(crate) fn place_of_ready(objects: &[OpenObject], lowest: u64) -> Option<usize>
    ensures { result ≡ position (may_start lowest) objects.now }
{
    objects.iter().position(|object| may_start(object, lowest))
}

// Starts the object of this number, or makes it ready again. That it was started once stays known.
pub(crate) fn set_started(objects: &mut [OpenObject], number: u64, is_started: bool)
    ensures { objects.new ≡ with_started number is_started objects.old }
{
    if let Some(place) = place_of(objects, number) {
        let object = &mut objects[place];
        object.is_started = is_started;
        object.was_started |= is_started;
    }
}
