ghost use Rattle.base.specs.Bytes.{xor};
ghost use Rattle.std.proofs.Common.{◌∙◌, arith, rules};
ghost use Rattle.base.proofs.Xors.{length-xor, Bytes-xor};

use crate::compression::{Compression, check_parts};
use base::refusal::Refusal;
use base::slices::xor_into;

// The trial function of the bench: H ⊕ M, with no key. It hides nothing.
#[derive(Clone, Copy)]
pub struct Trial;

impl Compression for Trial {
    const WIDTH: usize = 32;

    const FEEDBACK: u16 = 0x0425;

    ghost WIDTH = { 32 };

    ghost FEEDBACK = { 0x0425 };

    ghost value = { λ _ h m. xor h m };

    ghost wide = { Prim.search rules };

    ghost narrow = { Prim.search rules };

    ghost sized = { λ f h m eh em. length-xor h m ∙ omega arith };

    ghost bytes = { λ f h m bh bm. Bytes-xor h m bh bm };

    fn compress(&mut self, h: &[u8], m: &[u8], out: &mut [u8]) -> Result<(), Refusal> {
        check_parts(Self::WIDTH, h.len(), m.len(), out.len())?;
        out.copy_from_slice(h);
        xor_into(out, m);
        Ok(())
    }
}
