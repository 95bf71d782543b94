ghost use Rattle.std.specs.Prelude.{◌≡◌, ◌%◌, IfOk, vec_len};
ghost use Rattle.lsvd_fault.specs.Faults.{Counts};
ghost use Rattle.nbd_wire.specs.Reading.{ReadsData, is_link_fault};
ghost use Rattle.nbd_session.specs.Exchanges.{content_size};
ghost use Rattle.nbd_session.specs.Steps.{IsContent, IsWholeSectors};

use crate::asking::Asked;
use crate::command::Command;
use lsvd_base::Body;
use lsvd_fault::Source;
use nbd_wire::{Request, WireEnd, drop_data, read_data};
use std::alloc::{AllocError, Global};

/// Reads the data that come after a request: those of a write that is taken, which are whole sectors (a
/// condition), where there is memory for them. Those of any other write are dropped, and no other request has
/// any.
pub(crate) fn read_content<K: Source>(
    alloc: Global,
    link: &mut K,
    request: &Request,
    asked: Asked,
) -> Result<Option<Body>, WireEnd>
    requires { IsWholeSectors asked request.now }
    ensures bytes { ReadsData (content_size request.now) IsContent (K.remaining link.old)
        (K.remaining link.new) result }
    ensures other { K.written link.new ≡ K.written link.old }
    ensures count { Counts (is_link_fault result) (K.faults link.old) (K.faults link.new) }
{
    match Command::from_kind(request.kind) {
        Some(Command::Write) => {}
        _ => return Ok(None),
    }
    match asked {
        Asked::Write { .. } => read_body(alloc, link, request.length),
        _ => drop_body(link, request.length),
    }
}

// Reads the data of a write, which are whole sectors (a condition). Where there is no memory for them, they
// are dropped.
fn read_body<K: Source>(alloc: Global, link: &mut K, size: u32) -> Result<Option<Body>, WireEnd>
    requires { size % 512 ≡ 0 }
    ensures bytes { ReadsData size IsContent (K.remaining link.old) (K.remaining link.new) result }
    ensures other { K.written link.new ≡ K.written link.old }
    ensures count { Counts (is_link_fault result) (K.faults link.old) (K.faults link.new) }
{
    let Ok(mut bytes) = zeros(alloc, size as usize) else {
        return drop_body(link, size);
    };
    read_data(link, bytes.as_mut_slice())?;
    Ok(Some(Body::from_bytes(bytes)))
}

// Reads the data of a write and drops them.
fn drop_body<K: Source>(link: &mut K, size: u32) -> Result<Option<Body>, WireEnd>
    ensures bytes { ReadsData size IsContent (K.remaining link.old) (K.remaining link.new) result }
    ensures other { K.written link.new ≡ K.written link.old }
    ensures count { Counts (is_link_fault result) (K.faults link.old) (K.faults link.new) }
{
    drop_data(link, size)?;
    Ok(None)
}

// So many zeros.
fn zeros(alloc: Global, count: usize) -> Result<Vec<u8>, AllocError>
    ensures { IfOk result (λ bytes. vec_len bytes ≡ count) }
{
    vec![in alloc; 0u8; count]
}
