// What parts are made from, and made into.
ghost use Rattle.std.specs.Prelude.{◌≡◌, ◌*◌, ◌≤◌, length, take, drop};
ghost use Rattle.base.specs.Bytes.{Xored, xor, zeros, padded, filled, digits, double};
ghost use Rattle.compression.specs.Parts.{bytes_of};

use crate::compression::Compression;
use crate::part::{LONGEST, Part};
use base::slices::{double_into, fill_into, number_into, pad_into, xor_into};
use std::marker::PhantomData;
use std::ops::BitXor;

impl<F: Compression> Part<F> {
    // The front of an array.
    pub fn front(bytes: [u8; LONGEST]) -> Part<F>
        ensures { bytes_of result ≡ take F.WIDTH bytes }
    {
        Part {
            bytes,
            of: PhantomData,
        }
    }

    // Zero bytes.
    pub fn zeros() -> Part<F>
        ensures { bytes_of result ≡ zeros F.WIDTH }
    {
        Part::front([0; LONGEST])
    }

    // A copy of as many bytes as the width.
    pub fn of(bytes: &[u8]) -> Part<F>
        requires { length bytes.now ≡ F.WIDTH }
        ensures { bytes_of result ≡ bytes.now }
    {
        let n = bytes.len();
        let mut room = [0; LONGEST];
        room[..n].copy_from_slice(bytes);
        Part::front(room)
    }

    // Kept apart, this one, the next two and `^`: one function over all would take a closure that
    // fills bytes, with a clause of its own for what it writes.
    // A copy of bytes, filled by 80 and zeros if they are fewer than the width.
    pub fn padded(bytes: &[u8]) -> Part<F>
        requires { length bytes.now ≤ F.WIDTH }
        ensures { bytes_of result ≡ padded F.WIDTH bytes.now }
    {
        let w = F::WIDTH;
        let mut room = [0; LONGEST];
        pad_into(&mut room[..w], bytes);
        Part::front(room)
    }

    // A copy of bytes, filled by zeros.
    pub fn filled(bytes: &[u8]) -> Part<F>
        requires { length bytes.now ≤ F.WIDTH }
        ensures { bytes_of result ≡ filled F.WIDTH bytes.now }
    {
        let w = F::WIDTH;
        let mut room = [0; LONGEST];
        fill_into(&mut room[..w], bytes);
        Part::front(room)
    }

    // ⟨t⟩.
    pub fn number(t: usize) -> Part<F>
        ensures { bytes_of result ≡ digits F.WIDTH t }
    {
        let w = F::WIDTH;
        let mut room = [0; LONGEST];
        number_into(&mut room[..w], t);
        Part::front(room)
    }

    pub fn as_slice(&self) -> &[u8]
        ensures bytes { result.now ≡ bytes_of self.now }
        ensures long { length result.now ≡ F.WIDTH }
    {
        let w = F::WIDTH;
        &self.bytes[..w]
    }

    // The two halves of a block of bytes, filled by 80 and zeros if it is short.
    pub fn halves(block: &[u8]) -> (Part<F>, Part<F>)
        requires { length block.now ≤ 2 * F.WIDTH }
        ensures left { bytes_of result.0 ≡ take F.WIDTH (padded (2 * F.WIDTH) block.now) }
        ensures right { bytes_of result.1 ≡ drop F.WIDTH (padded (2 * F.WIDTH) block.now) }
    {
        let w = F::WIDTH;
        if block.len() < w {
            return (Part::padded(block), Part::zeros());
        }
        let (left, right) = block.split_at(w);
        (Part::of(left), Part::padded(right))
    }

    // Writes the first bytes to `out`.
    pub fn write_front(&self, out: &mut [u8])
        requires { length out.old ≤ F.WIDTH }
        ensures { out.new ≡ take (length out.old) (bytes_of self.now) }
    {
        let n = out.len();
        out.copy_from_slice(&self.as_slice()[0..n]);
    }

    // Writes `src` ⊕ the first bytes to `dst`.
    pub fn xor_to(&self, src: &[u8], dst: &mut [u8])
        requires src { length src.now ≤ F.WIDTH }
        requires dst { length dst.old ≡ length src.now }
        ensures { dst.new ≡ xor src.now (bytes_of self.now) }
    {
        dst.copy_from_slice(src);
        xor_into(dst, self.as_slice());
    }

    // 2·x.
    pub fn double(self) -> Part<F>
        ensures { bytes_of result ≡ double F.FEEDBACK (bytes_of self) }
    {
        let w = F::WIDTH;
        let mut bytes = self.bytes;
        double_into(&mut bytes[..w], F::FEEDBACK);
        Part::front(bytes)
    }

    // F(h, m).
    pub fn compressed(f: &mut F, h: Part<F>, m: Part<F>) -> Part<F>
        ensures kept { F.value f.new ≡ F.value f.old }
        ensures value { bytes_of result ≡ F.value f.old (bytes_of h) (bytes_of m) }
    {
        let w = F::WIDTH;
        let mut out = [0; LONGEST];
        match f.compress(h.as_slice(), m.as_slice(), &mut out[..w]) {
            Ok(()) => Part::front(out),
            Err(_) => unreachable(),
        }
    }
}

// a ⊕ b.
impl<F: Compression> BitXor<Part<F>> for Part<F> {
    type Output = Part<F>;

    ghost bitxor_gives = { λ a b r. Xored (bytes_of a) (bytes_of b) (bytes_of r) };

    fn bitxor(self, rhs: Part<F>) -> Part<F> {
        let w = F::WIDTH;
        let mut room = [0; LONGEST];
        rhs.xor_to(self.as_slice(), &mut room[..w]);
        Part::front(room)
    }
}
