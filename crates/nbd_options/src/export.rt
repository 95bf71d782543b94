ghost use Rattle.std.specs.Prelude.{◌≡◌, ◌↔◌, ◌++◌, IsTrue};
ghost use Rattle.nbd_options.specs.Export.{IsNameOf, uuid_text};
ghost use Rattle.nbd_options.specs.Replies.{named_export};

use lsvd_bytes::write_u32;
use uuid::Uuid;

// The bytes of the text of a uuid.
const TEXT_BYTES: u32 = 36;

/// What a server exports: one volume. Its names are the empty text, and the text of its uuid in lower case
/// with hyphens.
#[derive(Clone, Copy, Debug, PartialEq, Eq)]
pub struct Export {
    /// The uuid of the volume.
    pub uuid: Uuid,
    /// The bytes of the volume.
    pub size: u64,
    /// The most bytes of one read or write.
    pub max_transfer: u32,
}

// Whether the bytes are a name of the export.
pub(crate) fn has_name(export: &Export, name: &[u8]) -> bool
    ensures { IsTrue result ↔ IsNameOf export.now name.now }
{
    let mut buffer = Uuid::encode_buffer();
    let text: &str = export.uuid.hyphenated().encode_lower(&mut buffer);
    name.is_empty() || name == text.as_bytes()
}

// The name of the export, after its length.
pub(crate) fn named_export(export: &Export) -> [u8; 40]
    ensures { result ≡ named_export export.now }
{
    let mut bytes = [0; 40];
    let mut buffer = Uuid::encode_buffer();
    let text: &str = export.uuid.hyphenated().encode_lower(&mut buffer);
    write_u32(&mut bytes, 0, TEXT_BYTES);
    bytes[4..].copy_from_slice(text.as_bytes());
    bytes
}
