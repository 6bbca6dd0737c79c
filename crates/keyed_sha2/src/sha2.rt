// SHA-256 and SHA-512 by one code.
ghost use Rattle.std.specs.Prelude.{◌≡◌, ℕ, ◌*◌, ◌<◌, ◌≤◌, ◌^◌};
ghost use Rattle.std.specs.Mem.{type_size};
ghost use Rattle.fips180.specs.Compression.{half_fixed};
ghost use Rattle.keyed_sha2.specs.Keys.{keyed};
ghost use Rattle.fips180.proofs.Compressed.{length-half_fixed, Bytes-half_fixed};
ghost use Rattle.std.proofs.Common.{◌∙◌, sym};

use base::refusal::Refusal;
use base::slices::fill_into;
use compression::compression::{Compression, check_parts};
use compression::keyed::{Keyed, check_key};
use fips180::block::compress_halves;
use fips180::word::Word;
use std::marker::PhantomData;

// The most rounds of a member of the family.
const MOST_ROUNDS: usize = 80;

// Words whose function has chaining values of `WIDTH` bytes, and the feedback number of that width.
// The schedule of such words fits the array that a call makes for it.
pub trait Member<const WIDTH: usize>: Word + Default {
    const FEEDBACK: u16;

    ghost FEEDBACK: { ℕ };

    ghost fits: { (WIDTH ≡ 8 * Self.sizes.bytes) × (32 ≤ WIDTH) × (WIDTH ≤ 64) × (FEEDBACK < 2 ^ 16) };

    ghost few: { Self.sizes.rounds ≤ 80 };

    ghost small: { type_size Self.row ≤ 8 };
}

// The compression of SHA-2 under a key. `key` is the first half of each block.
#[derive(Drop)]
pub struct Sha2<W, const WIDTH: usize> {
    key: [u8; WIDTH],
    words: PhantomData<W>,
}

impl<W: Member<WIDTH>, const WIDTH: usize> Compression for Sha2<W, WIDTH> {
    const WIDTH: usize = WIDTH;

    const FEEDBACK: u16 = W::FEEDBACK;

    ghost WIDTH = { WIDTH };

    ghost FEEDBACK = { W.FEEDBACK };

    ghost value = { λ f. half_fixed W.sizes f.key };

    ghost wide = { (W.fits.1, W.fits.2) };

    ghost narrow = { W.fits.3 };

    ghost sized = { λ f h m eh em. length-half_fixed W.sizes f.key h m ∙ sym W.fits.0 };

    ghost bytes = { λ f h m bh bm. Bytes-half_fixed W.sizes f.key h m };

    fn compress(&mut self, h: &[u8], m: &[u8], out: &mut [u8]) -> Result<(), Refusal> {
        check_parts(WIDTH, h.len(), m.len(), out.len())?;
        let mut room = [W::default(); MOST_ROUNDS];
        let room = &mut room[..W::constants().len()];
        compress_halves(room, h, &self.key, m, out);
        Ok(())
    }
}

impl<W: Member<WIDTH>, const WIDTH: usize> Keyed for Sha2<W, WIDTH> {
    ghost under = { keyed W.sizes };

    fn new() -> Sha2<W, WIDTH> {
        Sha2 {
            key: [0; WIDTH],
            words: PhantomData,
        }
    }

    fn set_key(&mut self, key: &[u8]) -> Result<(), Refusal> {
        check_key(WIDTH, key.len())?;
        fill_into(&mut self.key, key);
        Ok(())
    }
}
