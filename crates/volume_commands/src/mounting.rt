ghost use Rattle.std.specs.Prelude.{◌≡◌, ◌≤◌, ◌^◌, IfSome, IfOk, OnOk, IsErrOf};
ghost use Rattle.lsvd_device.specs.Device.{IsDisk};
ghost use Rattle.lsvd_objstore.specs.Store.{OnlyCounts};
ghost use Rattle.stopped_volume.specs.Store.{TellsBytes};
ghost use Rattle.volume_commands.specs.Mounting.{HasLogLength, IsWhyBefore, MountEnds, bytes_anew, log_anew};
ghost use Rattle.volume_commands.specs.World.{IsConstant};

use crate::creating::device_bytes;
use crate::error::CommandError;
use command_line::MountRequest;
use lsvd_device::Disk;
use lsvd_objstore::Store;
use refusals::Refusal;
use std::alloc::Global;
use vol_recover::{MountError, Mounted, admit_log, mount_kept, mount_lost};

// The bytes of a cache that is made anew; None is for one that there is. Whether the volume takes a log of
// that length is asked before, since what a cache held is lost then.
pub(crate) fn length_anew<S: Store>(
    alloc: Global,
    store: &mut S,
    request: &MountRequest<'_>,
) -> Result<Option<u64>, CommandError>
    requires { HasLogLength request.now }
    ensures length { IfOk result (λ length. length ≡ bytes_anew request.now) }
    ensures same { OnOk result (S.state store.new ≡ S.state store.old) }
    ensures unchanged { OnlyCounts (S.state store.old) (S.state store.new) }
    ensures why { TellsBytes S.Receipt.state → (why : Refusal) → IsErrOf result (CommandError.Refused why)
        → IsWhyBefore request.now (S.state store.old).objects why }
    ensures fault { IsErrOf result CommandError.Fault → IsConstant (λ store. (S.state store).faults) → ⊥ }
{
    let Some(log) = log_anew(request) else {
        return Ok(None);
    };
    match admit_log(alloc, store, request.volume, log) {
        Ok(()) => Ok(Some(device_bytes(log))),
        Err(error) => Err(error.into()),
    }
}

// How many sectors the log of a cache has that is made anew; None is for one that there is.
fn log_anew(request: &MountRequest<'_>) -> Option<u64>
    requires { HasLogLength request.now }
    ensures log { result ≡ log_anew request.now }
    ensures fits { IfSome result (λ log. log ≤ 2 ^ 31) }
{
    if request.is_lost { request.log } else { None }
}

// Mounts the volume that is asked for, with the cache that it had or without it.
pub(crate) fn mount<D: Disk, S: Store>(
    alloc: Global,
    disk: D,
    store: &mut S,
    request: &MountRequest<'_>,
) -> Result<Mounted<D, S::Receipt>, (D, MountError)>
    requires { IsDisk (D.state disk) }
    ensures { MountEnds D.state S.Receipt.state request.now.is_lost request.now.volume (D.state disk)
        (S.state store.old) (S.state store.new) result }
{
    if request.is_lost {
        return mount_lost(alloc, disk, store, request.volume);
    }
    mount_kept(alloc, disk, store, request.volume)
}
