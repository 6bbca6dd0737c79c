// The parts of serial and counter.
ghost use Rattle.std.specs.Prelude.{◌≡◌, ℕ, ◌*◌, ◌≤◌, List, length, if◌then◌else◌};
ghost use Rattle.base.specs.Bytes.{digits, xor};
ghost use Rattle.compression.specs.Parts.{bytes_of};
ghost use Rattle.frames.specs.Offsets.{Entries, Filled, delta, star};
ghost use Rattle.two_pass.specs.Kinds.{number_of};
ghost use Rattle.two_pass.specs.Sums.{Summed};
ghost use Rattle.two_pass.specs.TwoPass.{ad_sum, nonce_offset, tag_block, times};

use crate::kinds::{Kind, Kinds};
use compression::compression::Compression;
use compression::part::Part;
use frames::offsets::OffsetTable;
use frames::pass::Pass;
use frames::sums::{hash, sum_front};

// `sum` ⊕ `x`, or `sum` alone.
fn add_if<F: Compression>(set: bool, x: Part<F>, sum: Part<F>) -> Part<F>
    ensures { bytes_of result ≡ (if set then xor (bytes_of sum) (bytes_of x) else bytes_of sum) }
{
    if set { sum ^ x } else { sum }
}

// j·L*, where j is the kind's number.
#[tactic(auto, unfolding(crate::specs::TwoPass::times))]
fn times<F: Compression>(star: Part<F>, kind: Kind) -> Part<F>
    ensures { bytes_of result ≡ times F.WIDTH F.FEEDBACK (bytes_of star) (number_of kind) }
{
    let j = u8::from(kind);
    let two = star.double();
    let four = two.double();
    let fours = add_if(j / 4 % 2 == 1, four, Part::zeros());
    let twos = add_if(j / 2 % 2 == 1, two, fours);
    add_if(j % 2 == 1, star, twos)
}

// D(0).
// Kept apart: here the nonce and below the associated data, each alone.
pub(crate) fn begin<F: Compression>(f: &mut F, nonce: &[u8]) -> Part<F>
    requires { length nonce.now ≤ 31 }
    ensures kept { F.value f.new ≡ F.value f.old }
    ensures offset { bytes_of result ≡ nonce_offset F.WIDTH F.FEEDBACK (F.value f.old) nonce.now }
{
    Part::compressed(f, Part::padded(nonce), Part::zeros())
}

// Kept as a clause, here and below: that the table is filled, which is a fact of the table and of F
// together.
// Sums all blocks of `src` but the last onto `sum`. The answer stands at the last block, with its
// mask as the offset.
fn sum_to_last<'a, F: Compression>(
    f: &mut F,
    table: &OffsetTable<F>,
    kinds: Kinds,
    d: Part<F>,
    sum: Part<F>,
    src: &'a [u8],
) -> (Pass<F>, &'a [u8])
    requires table { Filled F.WIDTH F.FEEDBACK 3 (star F.WIDTH (F.value f.old)) table.now }
    requires src { length src.now ≤ 4096 }
    ensures kept { F.value f.new ≡ F.value f.old }
    ensures summed { Summed F.WIDTH F.FEEDBACK (F.value f.old) kinds (bytes_of d) (bytes_of sum) src.now result.0 result.1.now }
{
    let kind = times(table.star, kinds.front);
    let start = Pass {
        index: 0,
        offset: d ^ kind,
        value: sum,
    };
    let (pass, last) = sum_front(f, table, start, src);
    let index = pass.index + 1;
    let last_kind = times(table.star, kinds.last(last.len(), 2 * F::WIDTH));
    let offset = table.next(pass.offset, index) ^ kind ^ last_kind;
    let at_last = Pass {
        index,
        offset,
        value: pass.value,
    };
    (at_last, last)
}

// The associated data's part of S.
pub(crate) fn sum_ad<F: Compression>(
    f: &mut F,
    table: &OffsetTable<F>,
    d: Part<F>,
    ad: &[u8],
) -> Part<F>
    requires table { Filled F.WIDTH F.FEEDBACK 3 (star F.WIDTH (F.value f.old)) table.now }
    requires ad { length ad.now ≤ 1024 }
    ensures kept { F.value f.new ≡ F.value f.old }
    ensures sum { bytes_of result ≡ ad_sum F.WIDTH F.FEEDBACK (F.value f.old) (bytes_of d) ad.now }
{
    let zeros = Part::zeros();
    if ad.is_empty() {
        return zeros;
    }
    let (pass, last) = sum_to_last(f, table, Kinds::AD, d, zeros, ad);
    pass.value ^ hash(f, pass.offset, last)
}

// The block whose first bytes are the tag, where `sum` is the associated data's part of S.
pub(crate) fn hash_page<F: Compression>(
    f: &mut F,
    table: &OffsetTable<F>,
    d: Part<F>,
    sum: Part<F>,
    page: &[u8],
) -> Part<F>
    requires table { Filled F.WIDTH F.FEEDBACK 3 (star F.WIDTH (F.value f.old)) table.now }
    requires page { length page.now ≤ 4096 }
    ensures kept { F.value f.new ≡ F.value f.old }
    ensures tag { bytes_of result ≡ tag_block F.WIDTH F.FEEDBACK (F.value f.old) (bytes_of d) (bytes_of sum) page.now }
{
    let (pass, last) = sum_to_last(f, table, Kinds::PAGE, d, sum, page);
    hash(f, pass.value ^ pass.offset, last)
}

// ⟨8τ⟩.
// Kept a number with a clause: it needs nothing else of a set-up, whose type bounds it.
pub(crate) fn tag_bits<F: Compression>(tag_len: usize) -> Part<F>
    requires { tag_len ≤ 64 }
    ensures { bytes_of result ≡ digits F.WIDTH (8 * tag_len) }
{
    Part::number(8 * tag_len)
}

// D(1) under kind 6, and H(1) from V and ⟨8τ⟩.
pub(crate) fn first_block<F: Compression>(
    f: &mut F,
    table: &OffsetTable<F>,
    d: Part<F>,
    v: Part<F>,
    bits: Part<F>,
) -> Pass<F>
    ensures kept { F.value f.new ≡ F.value f.old }
    ensures begun { result.index ≡ 1 }
    ensures offset { (L : ℕ → List ℕ) → Entries table.now L → bytes_of result.offset ≡ delta L (xor (bytes_of d) (times F.WIDTH F.FEEDBACK (bytes_of table.now.star) 6)) 1 }
    ensures value { bytes_of result.value ≡ F.value f.old (xor (bytes_of v) (bytes_of result.offset)) (bytes_of bits) }
{
    let offset = table.next(d ^ times(table.star, Kind::Keystream), 1);
    let value = Part::compressed(f, v ^ offset, bits);
    Pass {
        index: 1,
        offset,
        value,
    }
}
