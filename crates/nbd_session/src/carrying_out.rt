ghost use Rattle.std.specs.Prelude.{◌≡◌, ℕ, List, IsTrue, IfSome};
ghost use Rattle.lsvd_base.specs.declared.entry.Entry.{Entry};
ghost use Rattle.lsvd_base.specs.Limits.{is_within_limits};
ghost use Rattle.nbd_session.specs.Exchanges.{ReadsSectors, EntersEntry, CarriesOut, write_of, zero_of};
ghost use Rattle.nbd_session.specs.Steps.{IsContent, HasItsContent, MayBeTaken, WriteFits, FlushesOrNot};
ghost use Rattle.nbd_session.specs.Steps.{done_by};
ghost use Rattle.nbd_session.specs.BlockDevice.{HasRoom, MayFlush, geometry_at};

use crate::asking::Asked;
use crate::block_device::BlockDevice;
use crate::outcome::ReplyError;
use lsvd_base::Body;
use std::alloc::Global;

/// Does what was asked, which the volume takes (a condition). The data of a write come with it, unless there
/// was no memory for them. Those that are answered are a read's, and else none.
pub(crate) fn carry_out<S, B: BlockDevice<S>>(
    alloc: Global,
    device: &mut B,
    store: &mut S,
    asked: Asked,
    body: Option<Body>,
) -> Result<Body, ReplyError>
    requires room { HasRoom B.io (B.state device.old store.old) }
    requires limits { IsTrue (is_within_limits (geometry_at B.io (B.state device.old store.old))) }
    requires fits { MayBeTaken (geometry_at B.io (B.state device.old store.old)) asked }
    requires whole { IfSome body (HasItsContent asked) }
    ensures { (content : List ℕ) → IsContent content body
        → (entered : List Entry) × CarriesOut B.io asked content result entered
        (B.state device.old store.old) (B.state device.new store.new) }
{
    match asked {
        Asked::Read { lba, sectors } => read(alloc, device, store, lba, sectors),
        Asked::Write {
            lba,
            is_durable,
            ..
        } => without_data(alloc, write(alloc, device, store, lba, body, is_durable)),
        Asked::Zero {
            lba,
            sectors,
            is_durable,
        } => without_data(alloc, zero(alloc, device, store, lba, sectors, is_durable)),
        Asked::Flush => without_data(alloc, flush_if(device, store, true)),
        Asked::Refused(error) => Err(ReplyError::Refused(error)),
        Asked::Disconnect => without_data(alloc, Ok(())),
    }
}

// What comes of a request whose answer has no data.
fn without_data(alloc: Global, done: Result<(), ReplyError>) -> Result<Body, ReplyError>
    ensures { result ≡ done_by done }
{
    done?;
    Ok(Body::from_bytes(Vec::new(alloc)))
}

// Reads so many sectors, or none.
fn read<S, B: BlockDevice<S>>(
    alloc: Global,
    device: &mut B,
    store: &mut S,
    lba: u64,
    sectors: u64,
) -> Result<Body, ReplyError>
    requires room { HasRoom B.io (B.state device.old store.old) }
    requires limits { IsTrue (is_within_limits (geometry_at B.io (B.state device.old store.old))) }
    requires fits { MayBeTaken (geometry_at B.io (B.state device.old store.old)) (Asked.Read lba sectors) }
    ensures { ReadsSectors B.io lba sectors result
        (B.state device.old store.old) (B.state device.new store.new) }
{
    if sectors == 0 {
        return Ok(Body::from_bytes(Vec::new(alloc)));
    }
    let body = device.read(alloc, store, lba, sectors)?;
    Ok(body)
}

// Writes the data, if there are any, and flushes then, where they are to be durable.
fn write<S, B: BlockDevice<S>>(
    alloc: Global,
    device: &mut B,
    store: &mut S,
    lba: u64,
    body: Option<Body>,
    is_durable: bool,
) -> Result<(), ReplyError>
    requires room { HasRoom B.io (B.state device.old store.old) }
    requires fits { IfSome body (WriteFits (geometry_at B.io (B.state device.old store.old)) lba) }
    ensures { (content : List ℕ) → IsContent content body
        → (entered : List Entry) × EntersEntry B.io (write_of lba content) is_durable (done_by result)
        entered (B.state device.old store.old) (B.state device.new store.new) }
{
    let Some(body) = body else {
        return Err(ReplyError::NoMemory);
    };
    if body.sectors() == 0 {
        drop(body);
        return flush_if(device, store, is_durable);
    }
    device.write(alloc, store, lba, body)?;
    flush_if(device, store, is_durable)
}

// Puts zeros at so many sectors, if there are any, and flushes then, where they are to be durable.
fn zero<S, B: BlockDevice<S>>(
    alloc: Global,
    device: &mut B,
    store: &mut S,
    lba: u64,
    sectors: u64,
    is_durable: bool,
) -> Result<(), ReplyError>
    requires room { HasRoom B.io (B.state device.old store.old) }
    requires fits { MayBeTaken (geometry_at B.io (B.state device.old store.old))
        (Asked.Zero lba sectors is_durable) }
    ensures { (entered : List Entry) × EntersEntry B.io (zero_of lba sectors) is_durable (done_by result)
        entered (B.state device.old store.old) (B.state device.new store.new) }
{
    if sectors == 0 {
        return flush_if(device, store, is_durable);
    }
    device.zero(alloc, store, lba, sectors)?;
    flush_if(device, store, is_durable)
}

// Flushes, where it is to be.
fn flush_if<S, B: BlockDevice<S>>(
    device: &mut B,
    store: &mut S,
    is_durable: bool,
) -> Result<(), ReplyError>
    requires { MayFlush B.io (B.state device.old store.old) }
    ensures { FlushesOrNot B.io is_durable result (B.state device.old store.old)
        (B.state device.new store.new) }
{
    if is_durable {
        device.flush(store)?;
    }
    Ok(())
}
