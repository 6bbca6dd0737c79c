// Words of 32 and of 64 bits, with what the hardware does to them, and the functions made of that.
ghost use Rattle.std.specs.Prelude.{◌≡◌, ℕ, ◌<◌, length, bit_and, bit_xor};
ghost use Rattle.base.specs.Bytes.{number, digits};
ghost use Rattle.fips180.specs.Words.{Sizes, sha256, sha512, bits, IsTurn, plus, complement, rotr, shr, ch as choice, maj as majority, big_sigma as three_turns, small_sigma as two_turns};
ghost use Rattle.std.proofs.Common.{rules};

use std::ops::{BitAnd, BitXor, Not};

// `sizes` are those of the member of SHA-2 that works on such words, and `val` is the number that
// a word stands for.
pub trait Bits: Copy + BitXor<Output = Self> + BitAnd<Output = Self> + Not<Output = Self> {
    // The bytes of a word.
    const BYTES: usize;

    ghost BYTES: { ℕ };

    ghost sizes: { Sizes };

    ghost val: { Self → ℕ };

    // From its bytes, the most significant first.
    fn read(bytes: &[u8]) -> Self
        requires { length bytes.now ≡ sizes.bytes }
        ensures { val result ≡ number bytes.now };

    // To its bytes.
    fn write(self, bytes: &mut [u8])
        requires { length bytes.old ≡ sizes.bytes }
        ensures { bytes.new ≡ digits sizes.bytes (val self) };

    fn plus(self, y: Self) -> Self
        ensures { val result ≡ plus sizes (val self) (val y) };

    ghost size: { BYTES ≡ sizes.bytes };

    ghost some: { 0 < sizes.bytes };

    ghost can_xor: { (x y : Self) → Self.can_bitxor x y };

    ghost can_and: { (x y : Self) → Self.can_bitand x y };

    ghost can_complement: { (x : Self) → Self.can_not x };

    ghost xors: { (x y r : Self) → Self.bitxor_gives x y r → val r ≡ bit_xor (val x) (val y) };

    ghost ands: { (x y r : Self) → Self.bitand_gives x y r → val r ≡ bit_and (val x) (val y) };

    ghost complements: { (x r : Self) → Self.not_gives x r → val r ≡ complement sizes (val x) };
}

// Words that turn and shift by a given number of bits: what Σ and σ are made of here. Apart, since
// the compression asks for Σ and σ themselves, whatever they are made of.
pub trait Turns: Bits {
    // ROTR.
    fn turned(self, n: u32) -> Self
        requires { IsTurn Self.sizes n }
        ensures { Self.val result ≡ rotr Self.sizes n (Self.val self) };

    // SHR.
    fn shifted(self, n: u32) -> Self
        requires { n < bits Self.sizes }
        ensures { Self.val result ≡ shr n (Self.val self) };
}

// Ch: the bits of x choose between y and z.
pub(crate) fn ch<W: Bits>(x: W, y: W, z: W) -> W
    ensures { W.val result ≡ choice W.sizes (W.val x) (W.val y) (W.val z) }
{
    (x & y) ^ (!x & z)
}

// Maj: the majority of three bits.
pub(crate) fn maj<W: Bits>(x: W, y: W, z: W) -> W
    ensures { W.val result ≡ majority (W.val x) (W.val y) (W.val z) }
{
    (x & y) ^ (x & z) ^ (y & z)
}

// Σ0 and Σ1: three turns.
pub(crate) fn big_sigma<W: Turns>(x: W, a: u32, b: u32, c: u32) -> W
    requires { (IsTurn W.sizes a) × (IsTurn W.sizes b) × (IsTurn W.sizes c) }
    ensures { W.val result ≡ three_turns W.sizes (a, b, c) (W.val x) }
{
    x.turned(a) ^ x.turned(b) ^ x.turned(c)
}

// σ0 and σ1: two turns and a shift.
pub(crate) fn small_sigma<W: Turns>(x: W, a: u32, b: u32, c: u32) -> W
    requires { (IsTurn W.sizes a) × (IsTurn W.sizes b) × (c < bits W.sizes) }
    ensures { W.val result ≡ two_turns W.sizes (a, b, c) (W.val x) }
{
    x.turned(a) ^ x.turned(b) ^ x.shifted(c)
}

// Kept: an impl for each type. Its methods are one call each, and the traits of `num_traits` that
// make such calls speak of whole numbers, from which each clause here would need a bridge.
impl Bits for u32 {
    const BYTES: usize = 4;

    ghost BYTES = { 4 };

    ghost sizes = { sha256 };

    ghost val = { λ x. x };

    ghost size = { Prim.search rules };

    ghost some = { Prim.search rules };

    ghost can_xor = { λ x y. tt };

    ghost can_and = { λ x y. tt };

    ghost can_complement = { λ x. tt };

    ghost xors = { λ x y r e. e };

    ghost ands = { λ x y r e. e };

    ghost complements = { λ x r e. e };

    fn read(bytes: &[u8]) -> u32 {
        u32::from_be_bytes(bytes.try_into().unwrap())
    }

    fn write(self, bytes: &mut [u8]) {
        bytes.copy_from_slice(&self.to_be_bytes());
    }

    fn plus(self, y: u32) -> u32 {
        self.wrapping_add(y)
    }
}

impl Turns for u32 {
    #[tactic(auto, using(crate::proofs::Turns::turn))]
    fn turned(self, n: u32) -> u32 {
        self.rotate_right(n)
    }

    fn shifted(self, n: u32) -> u32 {
        self >> n
    }
}

impl Bits for u64 {
    const BYTES: usize = 8;

    ghost BYTES = { 8 };

    ghost sizes = { sha512 };

    ghost val = { λ x. x };

    ghost size = { Prim.search rules };

    ghost some = { Prim.search rules };

    ghost can_xor = { λ x y. tt };

    ghost can_and = { λ x y. tt };

    ghost can_complement = { λ x. tt };

    ghost xors = { λ x y r e. e };

    ghost ands = { λ x y r e. e };

    ghost complements = { λ x r e. e };

    fn read(bytes: &[u8]) -> u64 {
        u64::from_be_bytes(bytes.try_into().unwrap())
    }

    fn write(self, bytes: &mut [u8]) {
        bytes.copy_from_slice(&self.to_be_bytes());
    }

    fn plus(self, y: u64) -> u64 {
        self.wrapping_add(y)
    }
}

impl Turns for u64 {
    #[tactic(auto, using(crate::proofs::Turns::turn))]
    fn turned(self, n: u32) -> u64 {
        self.rotate_right(n)
    }

    fn shifted(self, n: u32) -> u64 {
        self >> n
    }
}
