use log_room::LogRoom;
use test_output::{TestError, head};

// A log's sectors, its head and how many sectors are in use, and the sectors of a record that is to come.
const ROOMS: &[[u64; 4]] = &[
    // The least log: a record in it, one up to its end, and a full log with its head back at 0.
    [18, 0, 0, 9],
    [18, 9, 9, 9],
    [18, 0, 18, 1],
    // A pad of one sector: the record does not fit after it, or does once the tail has moved.
    [18, 17, 17, 2],
    [18, 17, 15, 2],
    [18, 17, 16, 1],
    // A long pad, and one that leaves a sector too few.
    [64, 56, 10, 9],
    [64, 55, 10, 9],
    [18, 10, 2, 9],
    // The longest log, and the longest record.
    [0x8000_0000, 0x7fff_ffff, 1, 65_537],
];

/// Tells where records stand that are entered into a log, and what room they take.
pub fn tell_all(rt: &HostRuntime) -> Result<(), TestError> {
    head(
        rt,
        "the room of a log: sectors, head and use; a record; its pad and place, head and use then",
    )?;
    for [log, head, used, sectors] in ROOMS {
        tell_room(rt, *log, *head, *used, *sectors)?;
    }
    Ok(())
}

fn tell_room(
    rt: &HostRuntime,
    log: u64,
    head: u64,
    used: u64,
    sectors: u64,
) -> Result<(), TestError> {
    if log > 0x8000_0000 || head >= log || used > log || sectors > 65_537 {
        return Err(TestError::Refused);
    }
    let room = LogRoom::at(log, head, used);
    let (pad, at) = (room.pad_before(sectors), room.position(sectors));
    print!(rt; " {log} {head} {used}; {sectors}; {pad} {at}")?;
    tell_entered(rt, room, sectors)
}

// Enters the record, and tells the room then.
fn tell_entered(rt: &HostRuntime, mut room: LogRoom, sectors: u64) -> Result<(), TestError> {
    if sectors > 65_537 {
        return Err(TestError::Refused);
    }
    let (need, free) = (room.need(sectors), room.free());
    if free < need {
        println!(rt; " {need} needed, {free} free")?;
        return Ok(());
    }
    room.enter(sectors);
    println!(rt; " {} {}", room.head(), room.used())?;
    Ok(())
}
