ghost use Rattle.ckpt_format.specs.Laws.{WritesCheckpoints, HasOneReading, ReadsWhatIsWritten};
ghost use Rattle.ckpt_format.specs.Laws.{BeginsNoObject, IsObjectWithoutRows};

/// A law: what is written, with rows that keep their one spelling, is a checkpoint.
pub fn what_is_written_is_a_checkpoint()
    ensures { WritesCheckpoints }
{}

/// A law: bytes are a checkpoint with one header and with one list of rows, whatever is expected of them.
pub fn a_checkpoint_has_one_reading()
    ensures { HasOneReading }
{}

/// A law: what is written is read again as the same rows.
pub fn what_is_written_is_read_again()
    ensures { ReadsWhatIsWritten }
{}

/// A law: the bytes of no checkpoint begin those of another object, of any kind.
pub fn no_checkpoint_begins_another_object()
    ensures { BeginsNoObject }
{}

/// A law: a checkpoint without rows is the object of the store that has no rows and no payload.
pub fn a_checkpoint_without_rows_is_an_object()
    ensures { IsObjectWithoutRows }
{}
