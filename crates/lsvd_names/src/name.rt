ghost use Rattle.std.specs.Prelude.{◌≡◌, ℕ, List, ◌++◌, [], IfOk, IfSome, IfNone};
ghost use Rattle.std.specs.String.{string_bytes};
ghost use Rattle.lsvd_names.specs.Names.{epoch_name, hold_name, numbered_name, super_name};
ghost use Rattle.lsvd_names.specs.Spelling.{IsName, IsNumbered, MayHaveNumber, ending, spelling, word};

use crate::digits::number_of;
use crate::volume::{a_uuid_has_sixteen_bytes, uuid_of};
use std::alloc::{AllocError, Global};
use uuid::Uuid;

/// What an object of the store is.
#[derive(Clone, Copy, Debug, PartialEq, Eq, PartialOrd, Ord, Hash)]
pub enum NameKind {
    /// The super object of a volume, which has one.
    Super,
    /// An epoch of the volume: each mount without its cache begins one.
    Epoch,
    /// A numbered object of the volume's stream: data, a copy, or a checkpoint.
    Object,
    /// A hold on the checkpoint of this number, which keeps it and what it names from removal.
    Hold,
}

/// The name of an object of the store.
#[derive(Clone, Copy, Debug, PartialEq, Eq, PartialOrd, Ord, Hash)]
pub struct ObjName {
    /// The volume that the object is part of.
    pub uuid: Uuid,
    /// What the object is.
    pub kind: NameKind,
    /// Which of its kind it is. A super has no number, and 0 stands here.
    pub number: u64,
}

impl ObjName {
    /// The name of the super object of a volume.
    pub fn super_of(uuid: Uuid) -> ObjName
        ensures is { result ≡ super_name uuid }
        ensures named { IsName result }
    {
        a_uuid_has_sixteen_bytes(uuid);
        ObjName {
            uuid,
            kind: NameKind::Super,
            number: 0,
        }
    }

    /// The name of the epoch of a number of a volume.
    pub fn epoch(uuid: Uuid, number: u64) -> ObjName
        ensures is { result ≡ epoch_name uuid number }
        ensures named { IsName result }
    {
        a_uuid_has_sixteen_bytes(uuid);
        ObjName {
            uuid,
            kind: NameKind::Epoch,
            number,
        }
    }

    /// The name of the object of a number of a volume's stream: data, a copy, or a checkpoint.
    pub fn object(uuid: Uuid, number: u64) -> ObjName
        ensures is { result ≡ numbered_name uuid number }
        ensures named { IsName result }
    {
        a_uuid_has_sixteen_bytes(uuid);
        ObjName {
            uuid,
            kind: NameKind::Object,
            number,
        }
    }

    /// The name of the hold on the checkpoint of a number of a volume.
    pub fn hold(uuid: Uuid, number: u64) -> ObjName
        ensures is { result ≡ hold_name uuid number }
        ensures named { IsName result }
    {
        a_uuid_has_sixteen_bytes(uuid);
        ObjName {
            uuid,
            kind: NameKind::Hold,
            number,
        }
    }

    /// Spells the name. A super has the number 0 (a condition). The one error is out of memory.
    pub fn print(&self, alloc: Global) -> Result<String, AllocError>
        requires { MayHaveNumber self.now.kind self.now.number }
        ensures { IfOk result (λ text. string_bytes text ≡ spelling self.now) }
    {
        let ObjName { uuid, kind, number } = *self;
        match kind {
            NameKind::Super => format!(in alloc; "{uuid}.super"),
            NameKind::Epoch => format!(in alloc; "{uuid}.epoch.{number:016x}"),
            NameKind::Object => format!(in alloc; "{uuid}.obj.{number:016x}"),
            NameKind::Hold => format!(in alloc; "{uuid}.hold.{number:016x}"),
        }
    }

    /// Reads a name. None is for a text that spells no name.
    pub fn parse(text: &str) -> Option<ObjName>
        ensures found { IfSome result (λ name. IsName name × (text.now ≡ spelling name)) }
        ensures none { IfNone result ((name : ObjName) → IsName name → text.now ≡ spelling name → ⊥) }
    {
        let (uuid, ending) = text.split_once('.')?;
        let (kind, number) = kind_and_number(ending)?;
        Some(ObjName {
            uuid: uuid_of(uuid)?,
            kind,
            number,
        })
    }
}

// The kind and the number that stand after the uuid and a dot.
fn kind_and_number(text: &str) -> Option<(NameKind, u64)>
    ensures found { IfSome result (λ found. MayHaveNumber found.0 found.1
        × (text.now ≡ ending found.0 found.1)) }
    ensures none { IfNone result ((kind : NameKind) (number : ℕ) → text.now ≡ ending kind number → ⊥) }
{
    if text == "super" {
        return Some((NameKind::Super, 0));
    }
    let (word, digits) = text.split_once('.')?;
    Some((kind_of(word)?, number_of(digits.as_bytes())?))
}

// The kind with a number that has this word. None is where there is none.
fn kind_of(text: &str) -> Option<NameKind>
    ensures found { IfSome result (λ kind. IsNumbered kind × (text.now ≡ word kind)) }
    ensures none { IfNone result ((kind : NameKind) → IsNumbered kind → text.now ≡ word kind → ⊥) }
{
    match text {
        "epoch" => Some(NameKind::Epoch),
        "obj" => Some(NameKind::Object),
        "hold" => Some(NameKind::Hold),
        _ => None,
    }
}

/// A law: two names with one spelling are one name.
pub fn a_name_has_one_spelling()
    ensures { (a b : ObjName) → IsName a → IsName b → spelling a ≡ spelling b → a ≡ b }
{}

/// A law: no spelling of a name is a proper beginning of another, of its kind or of any.
pub fn no_spelling_begins_another()
    ensures { (a b : ObjName) (rest : List ℕ) → spelling b ≡ spelling a ++ rest → rest ≡ [] }
{}
