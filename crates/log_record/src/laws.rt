ghost use Rattle.log_record.specs.Laws.{HasOneSector, HasItsSectors, IsHeaderAndData};
ghost use Rattle.log_record.specs.Laws.{DeterminesEntry, DeterminesHead};

/// A law: a header has one sector.
pub fn a_header_has_one_sector()
    ensures { HasOneSector }
{}

/// A law: a record has as many bytes as its sectors, where its data are whole sectors.
pub fn a_record_has_its_sectors()
    ensures { HasItsSectors }
{}

/// A law: a record is a header that says what its entry's says, and after it the entry's data.
pub fn a_record_is_a_header_and_data()
    ensures { IsHeaderAndData }
{}

/// A law: two entries with one record are one entry, with one seq.
pub fn a_record_determines_its_entry()
    ensures { DeterminesEntry }
{}

/// A law: a sector is the header of one head, at a place of a log within its limits.
pub fn a_sector_determines_its_head()
    ensures { DeterminesHead }
{}
