ghost use Rattle.base.specs.Bytes.{xor};
ghost use Rattle.std.proofs.Common.{◌∙◌, arith, rules};
ghost use Rattle.base.proofs.Xors.{length-xor, Bytes-xor};

use base::refusal::Refusal;
use base::slices::xor_into;
use compression::compression::{Compression, check_parts};
use std::marker::PhantomData;

// H ⊕ M, of a type that must stay on its thread, as a raw pointer must.
#[derive(Drop)]
pub struct Local {
    pub marker: PhantomData<*const u8>,
}

impl Compression for Local {
    const WIDTH: usize = 32;

    const FEEDBACK: u16 = 0x0425;

    ghost WIDTH = { 32 };

    ghost FEEDBACK = { 0x0425 };

    ghost value = { λ _ h m. xor h m };

    ghost wide = { Prim.search rules };

    ghost narrow = { Prim.search rules };

    ghost sized = { λ f h m eh em. length-xor h m ∙ omega arith };

    ghost bytes = { λ f h m bh bm. Bytes-xor h m bh bm };

    fn compress(&mut self, h: &[u8], m: &[u8], out: &mut [u8]) -> Result<(), Refusal> {
        check_parts(Self::WIDTH, h.len(), m.len(), out.len())?;
        out.copy_from_slice(h);
        xor_into(out, m);
        Ok(())
    }
}
