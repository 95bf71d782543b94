ghost use Rattle.std.specs.Prelude.{◌≡◌, ◌*◌, ◌↔◌, ℕ, IsTrue, IfSome, IfNone, length};
ghost use Rattle.nbd_options.specs.Info.{AsksFor, AsksForNothing, HasType};

use lsvd_bytes::{read_u16, read_u32};

// The name, and the bytes of the types of information, for which the data of an option ask. None is for data
// that do not ask so.
pub(crate) fn parts_of(content: &[u8]) -> Option<(&[u8], &[u8])>
    ensures found { IfSome result (λ parts. AsksFor content.now parts.0.now parts.1.now) }
    ensures none { IfNone result (AsksForNothing content.now) }
{
    if content.len() < 6 {
        return None;
    }
    let name_size = read_u32(content, 0) as usize;
    if content.len() - 6 < name_size {
        return None;
    }
    let count = usize::from(read_u16(content, 4 + name_size));
    if content.len() - 6 - name_size != 2 * count {
        return None;
    }
    Some((&content[4..4 + name_size], &content[6 + name_size..]))
}

// Whether one of the types is this one.
pub(crate) fn has_type(types: &[u8], kind: u16) -> bool
    ensures { IsTrue result ↔ HasType types.now kind }
{
    for i in 0..types.len() / 2 {
        if read_u16(types, 2 * i) == kind {
            return true;
        }
    }
    false
}
