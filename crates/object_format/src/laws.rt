ghost use Rattle.object_format.specs.Laws.{WritesObjects, HasOneReading, BeginsNoOther, DataRowsMayGoOn};
ghost use Rattle.object_format.specs.Laws.{CopyRowsMayGoOn, DataRowsHavePayload, CopyRowsHavePayload};

/// A law: what is written, with the payload that its rows have, is an object.
pub fn what_is_written_is_an_object()
    ensures { WritesObjects }
{}

/// A law: bytes are an object with one header and with one list of rows, whatever is expected of them.
pub fn an_object_has_one_reading()
    ensures { HasOneReading }
{}

/// A law: the bytes of no object begin those of another, of any kind.
pub fn no_object_begins_another()
    ensures { BeginsNoOther }
{}

/// A law: rows that may stand may have another at their end, which may stand after the last.
pub fn rows_may_go_on()
    ensures data_rows { DataRowsMayGoOn }
    ensures copy_rows { CopyRowsMayGoOn }
{}

/// A law: rows that may stand have all of the payload.
pub fn rows_have_the_payload()
    ensures data_rows { DataRowsHavePayload }
    ensures copy_rows { CopyRowsHavePayload }
{}
