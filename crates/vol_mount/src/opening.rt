ghost use Rattle.std.specs.Prelude.{◌≡◌, ◌<◌, ◌≤◌, IsTrue, IfOk, IfErr, OnOk, IfSome, IfNone};
ghost use Rattle.lsvd_base.specs.Limits.{is_within_limits};
ghost use Rattle.lsvd_device.specs.Device.{IsDisk};
ghost use Rattle.commit_body.specs.Body.{MayStand};
ghost use Rattle.commit_slot.specs.Slots.{log_of};
ghost use Rattle.stopped_volume.specs.Device.{owner_of, owner_with};
ghost use Rattle.vol_core.specs.Shows.{max_number};
ghost use Rattle.vol_mount.specs.Steps.{IsOpenedOf, IsNotOpened, IsWhyRefusedCommit};

use crate::error::MountError;
use crate::worn::worn_number;
use cache_log::CacheLog;
use commit_slot::Commits;
use log_record::Reason;
use lsvd_base::Geometry;
use lsvd_device::Disk;
use refusals::Refusal;
use std::alloc::Global;
use uuid::Uuid;

/// What is known of a volume before its log is opened.
#[derive(Clone, Copy)]
pub(crate) struct Known {
    /// Its uuid.
    pub(crate) uuid: Uuid,
    /// Its sizes, with the log of the device.
    pub(crate) geometry: Geometry,
    /// Its newest epoch.
    pub(crate) epoch: u64,
    /// The end of its objects.
    pub(crate) end: u64,
    /// The greatest number of its objects.
    pub(crate) greatest: u64,
}

/// Loads the commits of a device, and opens the log of the last one, which is of this volume in this epoch,
/// and begins at this end of its objects or before. The geometry is within the limits, its log has just the
/// sectors of the device past byte 4,096, and the device is a disk of at least 4,096 bytes (conditions). An
/// error comes with the device.
pub(crate) fn open_log<D: Disk>(
    alloc: Global,
    disk: D,
    known: &Known,
) -> Result<CacheLog<D>, (D, MountError)>
    requires limits { IsTrue (is_within_limits known.now.geometry) }
    requires is_disk { IsDisk (D.state disk) }
    requires size { 4096 ≤ (D.state disk).size }
    requires log { known.now.geometry.log ≡ log_of (D.state disk).size }
    ensures ok { IfOk result (IsOpenedOf (owner_with known.now.uuid known.now.epoch) known.now.geometry
        known.now.end (D.state disk)) }
    ensures low { OnOk result ((known.now.epoch < max_number) × (known.now.greatest < max_number)) }
    ensures err { IfErr result (λ error.
        IsNotOpened (owner_with known.now.uuid known.now.epoch) known.now.geometry known.now.end
        known.now.greatest error.1 (D.state disk) (D.state error.0)) }
    ensures is_disk { IfErr result (λ error. IsDisk (D.state error.0)) }
{
    let commits = match Commits::load(disk) {
        Ok(commits) => commits,
        Err((disk, error)) => return Err((disk, error.into())),
    };
    if let Some(refusal) = refusal_of(&commits, known) {
        return Err((commits.into_disk(), MountError::Refused(refusal)));
    }
    let log = match CacheLog::open(alloc, commits, &known.geometry) {
        Ok(log) => log,
        Err((commits, error)) => return Err((commits.into_disk(), error.into())),
    };
    let count = known.end.max(log.next_seq());
    match worn_number(&[log.number(), known.epoch, known.greatest, count]) {
        None => Ok(log),
        Some(value) => Err((
            log.into_disk(),
            MountError::Refused(Refusal::Worn { value }),
        )),
    }
}

// Why the last commit is not that of this volume in its newest epoch, or its log begins past the end of the
// volume's objects.
fn refusal_of<D: Disk>(commits: &Commits<D>, known: &Known) -> Option<Refusal>
    ensures none { IfNone result ((owner_of commits.now.body ≡ owner_with known.now.uuid known.now.epoch)
        × (commits.now.body.tail.seq ≤ known.now.end)) }
    ensures some { IfSome result (IsWhyRefusedCommit (owner_with known.now.uuid known.now.epoch) known.now.end
        commits.now.body) }
    ensures may_stand { MayStand commits.now.body (log_of commits.now.disk.size) }
{
    let body = commits.body();
    let found = Uuid::from_bytes(body.uuid);
    if found != known.uuid {
        return Some(Refusal::WrongVolume { found });
    }
    let (cache, store) = (body.epoch, known.epoch);
    if cache != store {
        return Some(Refusal::StaleCache { cache, store });
    }
    if known.end < body.tail.seq {
        let (seq, reason) = (known.end, Reason::Seq);
        return Some(Refusal::BadRecord { seq, reason });
    }
    None
}
