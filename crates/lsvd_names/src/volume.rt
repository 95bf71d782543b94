ghost use Rattle.std.specs.Prelude.{◌≡◌, ℕ, List, length, IfSome, IfNone};
ghost use Rattle.uuid.specs.Text.{hyphenated_text, lower};
ghost use Rattle.lsvd_names.specs.Spelling.{IsUuid};

use uuid::Uuid;

// The uuid that a text spells in lower case with hyphens. None is for any other text, also for the other
// forms of a uuid.
pub(crate) fn uuid_of(text: &str) -> Option<Uuid>
    ensures found { IfSome result (λ uuid. IsUuid uuid × (text.now ≡ hyphenated_text lower uuid)) }
    ensures none { IfNone result ((uuid : List ℕ) → IsUuid uuid → text.now ≡ hyphenated_text lower uuid → ⊥) }
{
    let uuid = Uuid::parse_str(text).ok()?;
    let mut buffer = Uuid::encode_buffer();
    let spelled: &str = uuid.hyphenated().encode_lower(&mut buffer);
    (spelled == text).then_some(uuid)
}

/// A law: a uuid has sixteen bytes. Nothing is done.
pub fn a_uuid_has_sixteen_bytes(uuid: Uuid)
    ensures { IsUuid uuid }
{
    are_bytes(uuid.into_bytes().as_slice());
}

// A fact for the proof of the caller: sixteen bytes are those of a uuid. Nothing is done.
fn are_bytes(bytes: &[u8])
    requires { length bytes.now ≡ 16 }
    ensures { IsUuid bytes.now }
{}
