use crate::changes::entries;
use object_stream::{Content, CopiedSector, CopiedSectors, Owner, PlainStream, StreamObject};
use std::alloc::{AllocError, Global};
use test_output::{TestError, head, tell};

// The object that a clone reads of the volume that it was made from, and the object 3.
const OPENING: &[Option<Owner>] = &[
    Some(Owner {
        level: 1,
        number: 2,
    }),
    None,
    Some(Owner {
        level: 0,
        number: 3,
    }),
];

// The first is still owned by its source, the second by no object of the volume's own.
const COPIED: &[CopiedSector] = &[
    CopiedSector { lba: 1, source: 4 },
    CopiedSector { lba: 0, source: 2 },
];

/// Writes who owns the sectors of a stream after each of its objects.
pub fn tell_all(rt: &HostRuntime) -> Result<(), TestError> {
    head(
        rt,
        "The owners of sectors 0 to 3; objects 4 and 7 are data, 5 is a copy, 6 a checkpoint",
    )?;
    let stream = stream_of(rt.alloc())?;
    let told = tell_stream(rt, &stream);
    drop(stream);
    told
}

fn tell_stream(rt: &HostRuntime, stream: &PlainStream) -> Result<(), TestError> {
    for number in [2, 3, 4, 5, 6, 7, 9] {
        println!(rt; "  up to object {number}: end {}", stream.end_at(number))?;
        tell_owners(rt, stream, number)?;
    }
    tell(rt, "entries in no object", &stream.unsealed().len())
}

fn tell_owners(rt: &HostRuntime, stream: &PlainStream, number: u64) -> Result<(), TestError> {
    for sector in 0..4 {
        match stream.owner(number, sector) {
            None => println!(rt; "    none")?,
            Some(owner) => println!(rt; "    {} {}", owner.level, owner.number)?,
        }
    }
    Ok(())
}

fn stream_of(alloc: Global) -> Result<PlainStream, AllocError> {
    Ok(PlainStream {
        number: 3,
        end: 10,
        opening: OPENING.to_vec(alloc)?,
        entries: entries(alloc)?,
        objects: objects(alloc)?,
    })
}

fn objects(alloc: Global) -> Result<Vec<StreamObject>, AllocError> {
    let mut objects = Vec::with_capacity(alloc, 4)?;
    add_objects(alloc, &mut objects)?;
    Ok(objects)
}

fn add_objects(alloc: Global, objects: &mut Vec<StreamObject>) -> Result<(), AllocError> {
    add(objects, Content::Data, 12)?;
    add(
        objects,
        Content::Copy(CopiedSectors::new(COPIED.to_vec(alloc)?)),
        12,
    )?;
    add(objects, Content::Checkpoint, 12)?;
    add(objects, Content::Data, 13)
}

fn add(objects: &mut Vec<StreamObject>, content: Content, end: u64) -> Result<(), AllocError> {
    objects.push(StreamObject { content, end })?;
    Ok(())
}
