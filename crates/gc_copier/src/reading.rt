ghost use Rattle.std.specs.Prelude.{◌≡◌, ◌∷◌, [], ◌+◌, ◌*◌, ◌<◌, ◌≤◌, length, take, IfOk, IfErr, OnOk};
ghost use Rattle.std.specs.Prelude.{IfSome};
ghost use Rattle.std.specs.List.{All};
ghost use Rattle.lsvd_bytes.specs.Places.{bytes_at};
ghost use Rattle.gc_copier.specs.Plan.{seen, all_seen};
ghost use Rattle.gc_copier.specs.Copying.{AsksGets, has_failed};
ghost use Rattle.gc_copier.specs.Runs.{CanRead, Fills, IsFailure, IsReadable, AreWritten, IsPartOf, HasRoom};
ghost use Rattle.gc_copier.specs.Runs.{spread_over};

use crate::error::CopyError;
use crate::runs::{MAX_SECTORS, run_from};
use crate::source::{PlanSource, source_of};
use lsvd_base::SECTOR_BYTES;
use lsvd_objstore::{Receipt, Store};
use object_format::CopyRow;

/// The bytes of the buffer that runs are read into.
pub(crate) const SCRATCH_BYTES: usize = 1_048_576;

/// Reads the rows, which are in the order of their data, into their places of the payload.
pub(crate) fn read_rows<S: Store>(
    store: &mut S,
    sources: &[PlanSource<S::Receipt>],
    rows: &[CopyRow],
    scratch: &mut [u8],
    payload: &mut [u8],
) -> Result<(), CopyError>
    requires rows { CanRead (all_seen S.Receipt.state sources.now) (length payload.old) rows.now }
    requires scratch { length scratch.old ≡ 1048576 }
    ensures read { OnOk result (Fills (all_seen S.Receipt.state sources.now) rows.now payload.old
        payload.new) }
    ensures failed { IfErr result (IsFailure (all_seen S.Receipt.state sources.now)) }
    ensures asks { AsksGets (all_seen S.Receipt.state sources.now) (length rows.now) (has_failed result)
        (S.state store.old) (S.state store.new) (S.gets store.old) (S.gets store.new) }
{
    let mut rest = rows;
    while !rest.is_empty() {
        let count = read_front(store, sources, rest, scratch, payload)?;
        rest = &rest[count..];
    }
    Ok(())
}

// Reads the first of the rows, of which there are some, and those that are read together with it; how many
// they were.
fn read_front<S: Store>(
    store: &mut S,
    sources: &[PlanSource<S::Receipt>],
    rows: &[CopyRow],
    scratch: &mut [u8],
    payload: &mut [u8],
) -> Result<usize, CopyError>
    requires rows { CanRead (all_seen S.Receipt.state sources.now) (length payload.old) rows.now }
    requires some { 0 < length rows.now }
    requires scratch { length scratch.old ≡ 1048576 }
    ensures some { IfOk result (λ count. 0 < count) }
    ensures most { IfOk result (λ count. count ≤ length rows.now) }
    ensures read { IfOk result (λ count. Fills (all_seen S.Receipt.state sources.now) (take count rows.now)
        payload.old payload.new) }
    ensures failed { IfErr result (IsFailure (all_seen S.Receipt.state sources.now)) }
    ensures asks { AsksGets (all_seen S.Receipt.state sources.now) 1 (has_failed result)
        (S.state store.old) (S.state store.new) (S.gets store.old) (S.gets store.new) }
{
    let first = rows[0];
    let source = source_of(sources, first.source.number);
    let run = run_from(&first.source, rows);
    if run.rows < 2 {
        read_one(store, source, &first, payload)?;
        return Ok(1);
    }
    let piece = &mut scratch[..(SECTOR_BYTES * run.sectors) as usize];
    read_run(
        store,
        source,
        &rows[..run.rows],
        first.source.place,
        piece,
        payload,
    )?;
    Ok(run.rows)
}

// Reads the data of a row straight into their place of the payload.
fn read_one<S: Store>(
    store: &mut S,
    source: &PlanSource<S::Receipt>,
    row: &CopyRow,
    payload: &mut [u8],
) -> Result<(), CopyError>
    requires { IsReadable (seen S.Receipt.state source.now) (length payload.old) row.now }
    ensures written { OnOk result (AreWritten (seen S.Receipt.state source.now) (row.now ∷ []) payload.old
        payload.new) }
    ensures failed { IfErr result (λ error. error ≡ CopyError.Failed source.now.number) }
    ensures asks { AsksGets (seen S.Receipt.state source.now ∷ []) 1 (has_failed result)
        (S.state store.old) (S.state store.new) (S.gets store.old) (S.gets store.new) }
{
    let at = (SECTOR_BYTES * row.place) as usize;
    let count = (SECTOR_BYTES * row.sectors) as usize;
    fetch(
        store,
        source,
        row.source.place,
        &mut payload[at..at + count],
    )
}

// Reads the sectors of a source's payload from `place` on into the whole of `piece`, and from there the data
// of rows into their places of the payload. The piece has them (a condition).
fn read_run<S: Store>(
    store: &mut S,
    source: &PlanSource<S::Receipt>,
    rows: &[CopyRow],
    place: u64,
    piece: &mut [u8],
    payload: &mut [u8],
) -> Result<(), CopyError>
    requires object { 512 * (source.now.front + place) + length piece.old
        ≤ (S.Receipt.state source.now.receipt).size }
    requires piece { All (IsPartOf place (length piece.old)) rows.now }
    requires room { All (HasRoom (length payload.old)) rows.now }
    ensures written { OnOk result (AreWritten (seen S.Receipt.state source.now) rows.now payload.old
        payload.new) }
    ensures failed { IfErr result (λ error. error ≡ CopyError.Failed source.now.number) }
    ensures asks { AsksGets (seen S.Receipt.state source.now ∷ []) 1 (has_failed result)
        (S.state store.old) (S.state store.new) (S.gets store.old) (S.gets store.new) }
{
    fetch(store, source, place, piece)?;
    spread(rows, place, piece, payload);
    Ok(())
}

// Reads the sectors of a source's payload from `place` on into the whole of a buffer. Its object has so many
// bytes there (a condition).
fn fetch<S: Store>(
    store: &mut S,
    source: &PlanSource<S::Receipt>,
    place: u64,
    buf: &mut [u8],
) -> Result<(), CopyError>
    requires { 512 * (source.now.front + place) + length buf.old
        ≤ (S.Receipt.state source.now.receipt).size }
    ensures bytes { OnOk result (IfSome (S.Receipt.state source.now.receipt).told (λ told. buf.new
        ≡ bytes_at (512 * (source.now.front + place)) (length buf.old) told)) }
    ensures failed { IfErr result (λ error. error ≡ CopyError.Failed source.now.number) }
    ensures asks { AsksGets (seen S.Receipt.state source.now ∷ []) 1 (has_failed result)
        (S.state store.old) (S.state store.new) (S.gets store.old) (S.gets store.new) }
{
    // The object has the sectors, so that its length bounds the byte where they begin.
    let _size = source.receipt.len();
    let from = SECTOR_BYTES * (source.front + place);
    let number = source.number;
    match store.get(&source.receipt, from, buf) {
        Ok(()) => Ok(()),
        Err(_) => Err(CopyError::Failed { number }),
    }
}

// Copies the data of rows from a piece, which begins at the sector `place` of their source's payload, into
// their places of the payload.
fn spread(rows: &[CopyRow], place: u64, piece: &[u8], payload: &mut [u8])
    requires piece { All (IsPartOf place (length piece.now)) rows.now }
    requires room { All (HasRoom (length payload.old)) rows.now }
    ensures { payload.new ≡ spread_over place piece.now rows.now payload.old }
{
    for row in rows {
        put(row, place, piece, payload);
    }
}

// Copies the data of one row.
fn put(row: &CopyRow, place: u64, piece: &[u8], payload: &mut [u8])
    requires piece { IsPartOf place (length piece.now) row.now }
    requires room { HasRoom (length payload.old) row.now }
    ensures { payload.new ≡ spread_over place piece.now (row.now ∷ []) payload.old }
{
    let from = (SECTOR_BYTES * (row.source.place - place)) as usize;
    let at = (SECTOR_BYTES * row.place) as usize;
    let count = (SECTOR_BYTES * row.sectors) as usize;
    payload[at..at + count].copy_from_slice(&piece[from..from + count]);
}
