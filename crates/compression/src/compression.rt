ghost use Rattle.std.specs.Prelude.{◌≡◌, ℕ, ◌^◌, ◌<◌, ◌≤◌, List, length, is_ok, if◌then◌else◌, Ok, nat_eq};
ghost use Rattle.base.specs.Bytes.{Bytes};
ghost use Rattle.compression.specs.Answers.{answer, misfit};

use base::refusal::{Cause, Refusal};

// The layer that a refusal of a compression function names.
pub(crate) const LAYER: u8 = 0;

// A keyed compression function F. It means a fixed map from two parts of `WIDTH` bytes, H and M, to
// `WIDTH` bytes.
pub trait Compression {
    const WIDTH: usize;

    const FEEDBACK: u16;

    ghost WIDTH: { ℕ };

    ghost FEEDBACK: { ℕ };

    ghost value: { Self → List ℕ → List ℕ → List ℕ };

    // Writes F(h, m) to `out`. Refuses a part that has not the width: H first, then M, then the
    // output; `out` is then as it was. The meaning stays in any case.
    fn compress(&mut self, h: &[u8], m: &[u8], out: &mut [u8]) -> Result<(), Refusal>
        ensures kept { value self.new ≡ value self.old }
        ensures answer { result ≡ answer WIDTH (length h.now) (length m.now) (length out.old) }
        ensures output { out.new ≡ (if is_ok result then value self.old h.now m.now else out.old) };

    ghost wide: { (32 ≤ WIDTH) × (WIDTH ≤ 64) };

    ghost narrow: { FEEDBACK < 2 ^ 16 };

    ghost sized: { (f : Self) (h m : List ℕ) → length h ≡ WIDTH → length m ≡ WIDTH → length (value f h m) ≡ WIDTH };

    ghost bytes: { (f : Self) (h m : List ℕ) → Bytes h → Bytes m → Bytes (value f h m) };

    // Kept beside the constants, since both functions are public.
    final fn block_len() -> usize
        ensures { result ≡ WIDTH }
    {
        Self::WIDTH
    }

    final fn reduction() -> u16
        ensures { result ≡ FEEDBACK }
    {
        Self::FEEDBACK
    }
}

// A part of `len` bytes where `width` are asked.
fn check_part(width: usize, len: usize) -> Result<(), Refusal>
    ensures { result ≡ (if nat_eq len width then Ok tt else misfit len) }
{
    if len != width {
        return Err(Refusal {
            cause: Cause::PartLength,
            layer: LAYER,
            figure: len,
        });
    }
    Ok(())
}

// The refusal of the first of three parts whose length is not `width`.
// Kept a number: who calls it hands in a `WIDTH` of its own, which a type would say no shorter.
pub fn check_parts(width: usize, h: usize, m: usize, out: usize) -> Result<(), Refusal>
    ensures { result ≡ answer width h m out }
{
    check_part(width, h)?;
    check_part(width, m)?;
    check_part(width, out)
}
