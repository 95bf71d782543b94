ghost use Rattle.std.specs.Prelude.{◌≡◌, ◌+◌, ◌*◌, IfOk, length};
ghost use Rattle.super_format.specs.Super.{head_bytes, super_bytes, HasSuperWidths, MayBeSuper, IsSuper};

use crate::ancestors::{ANCESTOR_BYTES, write_ancestors};
use crate::super_object::Super;
use crate::{
    BATCH_AT, COUNT_AT, HEAD_BYTES, MAGIC, MAX_WRITE_AT, SECTORS_AT, UUID_AT, VERSION, VERSION_AT,
};
use lsvd_base::ObjectBytes;
use lsvd_bytes::{write_16_bytes, write_u32, write_u64};
use std::alloc::{AllocError, Global};

impl Super {
    /// The bytes of the super object that says this, which may stand in one (a condition, that `may_stand`
    /// tests). The one error is that memory ran out.
    pub fn write(&self, alloc: Global) -> Result<ObjectBytes, AllocError>
        requires { MayBeSuper self.now }
        ensures { IfOk result (λ object. IsSuper object self.now.uuid self.now) }
    {
        let size = HEAD_BYTES + ANCESTOR_BYTES * self.chain.count() as usize;
        let mut bytes = vec![in alloc; 0; size]?;
        self.write_into(bytes.as_mut_slice());
        ObjectBytes::from_bytes(bytes)
    }

    // Writes it into as many bytes as it has.
    fn write_into(&self, bytes: &mut [u8])
        requires stands { MayBeSuper self.now }
        requires size { length bytes.old ≡ 48 + 24 * length self.now.chain }
        ensures bytes { bytes.new ≡ super_bytes self.now }
        ensures widths { HasSuperWidths self.now }
    {
        self.write_head(&mut bytes[..HEAD_BYTES]);
        write_ancestors(self.chain.ancestors(), &mut bytes[HEAD_BYTES..]);
    }

    // Writes what stands before the ancestors into 48 bytes.
    fn write_head(&self, head: &mut [u8])
        requires stands { MayBeSuper self.now }
        requires size { length head.old ≡ 48 }
        ensures bytes { head.new ≡ head_bytes self.now }
        ensures width { length self.now.uuid ≡ 16 }
    {
        let uuid = self.uuid.into_bytes();
        head[..VERSION_AT].copy_from_slice(&MAGIC);
        write_u32(head, VERSION_AT, VERSION);
        write_16_bytes(head, UUID_AT, &uuid);
        write_u64(head, SECTORS_AT, self.sectors);
        write_u32(head, MAX_WRITE_AT, self.max_write as u32);
        write_u32(head, BATCH_AT, self.batch as u32);
        write_u32(head, COUNT_AT, self.chain.count());
    }
}
