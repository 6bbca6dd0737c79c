// A second compression function, for tests and as an example: to bring another function of your
// own, write a crate like this one. Nothing above it changes.
// Mixer has no key and hides nothing. Unlike the trial function its L* is not zero, so that the
// masks of a mode show in its bodies.
// Read first: specs/Mixer.antt.
#![tactic(auto)]

ghost use Rattle.std.specs.Prelude.{◌≡◌, length};
ghost use Rattle.std.proofs.Common.{◌∙◌, arith, rules};
ghost use Rattle.mixer.specs.Mixer.{mixed};
ghost use Rattle.mixer.specs.Mixes.{length-mixed, Bytes-mixed};

use base::refusal::Refusal;
use compression::compression::{Compression, check_parts};

// F(H, M)[i] = (3·H[i] + 5·M[47 − i] + 7·i + 1) mod 256.
#[derive(Clone, Copy)]
pub struct Mixer;

impl Compression for Mixer {
    const WIDTH: usize = 48;

    const FEEDBACK: u16 = 0x8d05;

    ghost WIDTH = { 48 };

    ghost FEEDBACK = { 0x8d05 };

    ghost value = { λ _ h m. mixed h m };

    ghost wide = { Prim.search rules };

    ghost narrow = { Prim.search rules };

    ghost sized = { λ f h m eh em. length-mixed h m ∙ omega arith };

    ghost bytes = { λ f h m bh bm. Bytes-mixed h m };

    fn compress(&mut self, h: &[u8], m: &[u8], out: &mut [u8]) -> Result<(), Refusal> {
        check_parts(Self::WIDTH, h.len(), m.len(), out.len())?;
        mix(h, m, out);
        Ok(())
    }
}

// Writes F(h, m) to `out`.
fn mix(h: &[u8], m: &[u8], out: &mut [u8])
    requires h { length h.now ≡ 48 }
    requires m { length m.now ≡ 48 }
    requires out { length out.old ≡ 48 }
    ensures { out.new ≡ mixed h.now m.now }
{
    // The two parts by index, since they run in opposite directions.
    for (i, o) in out.iter_mut().enumerate() {
        let sum = 3 * usize::from(h[i]) + 5 * usize::from(m[47 - i]) + 7 * i + 1;
        *o = (sum % 256) as u8;
    }
}
