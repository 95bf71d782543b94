use crate::clock::{Report, Start};
use crate::error::BenchError;
use crate::volume::{SECTORS, TimedVolume};
use lsvd_base::{Body, SECTOR_BYTES};
use std::alloc::{AllocError, Global};

/// Writes until a volume has had so many writes. The batch is sealed and put whenever it is full.
pub fn write_up_to(alloc: Global, volume: &mut TimedVolume, writes: u64) -> Result<(), BenchError> {
    for _ in volume.writes()..writes {
        if volume.is_full() {
            volume.upload()?;
        }
        volume.write(body(alloc)?)?;
    }
    Ok(())
}

/// Times writes in random places, a seal of these, a plain copy of as many bytes, and the put of the object.
pub fn time_writes(
    rt: &HostRuntime,
    report: Report,
    volume: &mut TimedVolume,
    writes: u64,
) -> Result<(), BenchError> {
    volume.upload()?;
    let bodies = bodies(rt.alloc(), writes)?;
    time_copy(rt, report, &bodies)?;
    let start = Start::now(rt)?;
    write_all(volume, bodies)?;
    report.tell(rt, start, writes, "a write of 8 sectors")?;
    let start = Start::now(rt)?;
    volume.seal()?;
    report.tell(rt, start, writes, "its share of a seal")?;
    let start = Start::now(rt)?;
    volume.put()?;
    report.tell(rt, start, writes, "its share of a put")
}

fn time_copy(rt: &HostRuntime, report: Report, bodies: &[Body]) -> Result<(), BenchError> {
    let start = Start::now(rt)?;
    let _bytes = copy(rt.alloc(), bodies)?;
    report.tell(
        rt,
        start,
        bodies.len() as u64,
        "a plain copy of the data of a write",
    )
}

fn copy(alloc: Global, bodies: &[Body]) -> Result<Vec<u8>, AllocError> {
    let mut bytes = Vec::new(alloc);
    let each = (SECTORS * SECTOR_BYTES) as usize;
    bytes.reserve(bodies.len().wrapping_mul(each))?;
    for body in bodies {
        bytes.extend_from_slice(body.as_bytes())?;
    }
    Ok(bytes)
}

fn write_all(volume: &mut TimedVolume, bodies: Vec<Body>) -> Result<(), BenchError> {
    for body in bodies {
        volume.write(body)?;
    }
    Ok(())
}

fn bodies(alloc: Global, count: u64) -> Result<Vec<Body>, AllocError> {
    let mut bodies = Vec::new(alloc);
    for _ in 0..count {
        bodies.push(body(alloc)?)?;
    }
    Ok(bodies)
}

// The data of a write.
fn body(alloc: Global) -> Result<Body, AllocError> {
    Body::filled(alloc, SECTORS, 1)
}

/// Times the seal of a checkpoint, a plain copy of its bytes, its acknowledgement, and the removals that it
/// allows.
pub fn time_checkpoint(
    rt: &HostRuntime,
    report: Report,
    volume: &mut TimedVolume,
) -> Result<(), BenchError> {
    volume.upload()?;
    let start = Start::now(rt)?;
    volume.seal_checkpoint()?;
    report.tell(rt, start, 1, "a seal of a checkpoint")?;
    let job = volume.take()?;
    let start = Start::now(rt)?;
    let mut bytes = Vec::new(rt.alloc());
    bytes.extend_from_slice(job.object().as_bytes())?;
    report.tell(rt, start, 1, "a plain copy of its bytes")?;
    let start = Start::now(rt)?;
    volume.done(job)?;
    report.tell(rt, start, 1, "its acknowledgement")?;
    time_removals(rt, report, volume)
}

fn time_removals(
    rt: &HostRuntime,
    report: Report,
    volume: &mut TimedVolume,
) -> Result<(), BenchError> {
    let start = Start::now(rt)?;
    let removed = volume.remove_all()?;
    report.tell(rt, start, removed, "a removal")
}

/// Times looks in random places, each with its release.
pub fn time_looks(
    rt: &HostRuntime,
    report: Report,
    volume: &mut TimedVolume,
    looks: u64,
) -> Result<(), BenchError> {
    let start = Start::now(rt)?;
    look(volume, 8, looks)?;
    report.tell(rt, start, looks, "a look at 8 sectors")?;
    let start = Start::now(rt)?;
    look(volume, 1_024, looks)?;
    report.tell(rt, start, looks, "a look at 1,024 sectors")
}

fn look(volume: &mut TimedVolume, sectors: u64, looks: u64) -> Result<(), BenchError> {
    for _ in 0..looks {
        volume.look(sectors)?;
    }
    Ok(())
}
