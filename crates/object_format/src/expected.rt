ghost use Rattle.std.specs.Prelude.{◌≡◌, ◌↔◌, IsTrue};
ghost use Rattle.object_format.specs.Writing.{MayBeWritten};
ghost use Rattle.object_format.specs.Header.{has_due_seqs, is_header_within_limits, most_rows};

use crate::MAX_PAYLOAD;
use crate::header::Header;
use crate::kind::Kind;
use crate::rows::Rows;

/// What is known of an object by its number in the store, before it is read or written.
#[derive(Clone, Copy, Debug, PartialEq, Eq)]
pub struct Expected {
    /// The volume's uuid.
    pub uuid: [u8; 16],
    /// The number of the object.
    pub number: u64,
    /// The sectors of the volume.
    pub sectors: u64,
    /// How many ancestors the volume has, 0 to 15: the greatest level that a row may name. Level 0 is the
    /// volume itself, and the only one that a copy's rows may name.
    pub ancestors: u32,
    /// The end seq of the object before it, where that is known.
    pub end_before: Option<u64>,
}

impl Expected {
    // The most rows of a data object or a copy.
    const MAX_ROWS: u64 = 65_536;

    /// Whether rows may be written under this header, which is theirs: its seqs are in order for the kind and
    /// go on where the object before ends, its counts keep their limits, and the rows keep their one
    /// spelling.
    pub fn may_be_written(&self, header: &Header, rows: &Rows) -> bool
        ensures { IsTrue result ↔ MayBeWritten self.now header.now rows.now }
    {
        self.has_due_seqs(header)
            && self.allows_counts(header)
            && rows.may_stand(self.sectors, header)
    }

    /// Whether the header has the volume's uuid.
    pub(crate) fn has_uuid_of(&self, header: &Header) -> bool
        ensures { IsTrue result ↔ (header.now.uuid ≡ self.now.uuid) }
    {
        header.uuid == self.uuid
    }

    /// Whether the seqs are in order for the kind, and go on where the object before ends.
    pub(crate) fn has_due_seqs(&self, header: &Header) -> bool
        ensures { result ≡ has_due_seqs self.now header.now }
    {
        let of_kind = match header.kind {
            Kind::Data => header.first_seq < header.end_seq,
            Kind::Copy | Kind::Checkpoint => header.first_seq == header.end_seq,
        };
        let goes_on = match self.end_before {
            Some(end_before) => header.first_seq == end_before,
            None => true,
        };
        of_kind && goes_on
    }

    /// Whether there are no more rows and sectors of payload than an object may have.
    pub(crate) fn allows_counts(&self, header: &Header) -> bool
        ensures { result ≡ is_header_within_limits self.now header.now }
    {
        u64::from(header.rows) <= self.most_rows(header.kind) && header.payload <= MAX_PAYLOAD
    }

    // The most rows of an object of the kind.
    fn most_rows(&self, kind: Kind) -> u64
        ensures { result ≡ most_rows self.now.sectors kind }
    {
        match kind {
            Kind::Data | Kind::Copy => Self::MAX_ROWS,
            Kind::Checkpoint => self.sectors,
        }
    }
}
