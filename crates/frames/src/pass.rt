// The pass between a page and its ciphertext.
ghost use Rattle.std.specs.Prelude.{◌≡◌, ℕ, ◌+◌, ◌<◌, ◌≤◌, List, length, ⊤};
ghost use Rattle.base.specs.Bytes.{cut};
ghost use Rattle.compression.specs.Parts.{bytes_of};
ghost use Rattle.frames.specs.Chain.{chain};
ghost use Rattle.frames.specs.Directions.{cipher_of, page_of};
ghost use Rattle.frames.specs.Feeds.{next_by};
ghost use Rattle.frames.specs.Offsets.{Entries, delta};
ghost use Rattle.frames.specs.Progress.{Going, Turned};

use crate::offsets::OffsetTable;
// For callers that know it by this path.
pub use crate::rule::Direction;
use crate::rule::Rule;
use compression::compression::Compression;
use compression::part::Part;
use std::alloc::AllocError;

// How far a pass over blocks has come: `offset` is D(index), and `value` is the chaining value
// H(index), or the sum so far.
pub struct Pass<F: Compression> {
    pub index: usize,
    pub offset: Part<F>,
    pub value: Part<F>,
}

// Written out, as for `Part`.
impl<F: Compression> Copy for Pass<F> {}

impl<F: Compression> Clone for Pass<F> {
    ghost is_clone = { λ x y. y ≡ x };

    ghost is_infallible = { λ _. ⊤ };

    fn clone(&self) -> Result<Pass<F>, AllocError> {
        Ok(*self)
    }
}

// One full block from `src` to `dst`.
// Kept as clauses, here and below: that F means the same after a call, which no type of one value
// says; the bounds of the index and of the lengths, which the caller's loop knows; and that `dst` is
// as long as `src`, since no ghost field can stand beside a `&mut`.
// Kept apart: `f` and the table. The one is changed and the other is read, and a struct of both
// would ask each function to say that the table stays.
fn turn<F: Compression>(
    f: &mut F,
    table: &OffsetTable<F>,
    rule: Rule<F>,
    pass: Pass<F>,
    src: &[u8],
    dst: &mut [u8],
) -> Pass<F>
    requires index { pass.index < 255 }
    requires src { length src.now ≡ F.WIDTH }
    requires dst { length dst.old ≡ F.WIDTH }
    ensures kept { F.value f.new ≡ F.value f.old }
    ensures turned { Turned (F.value f.old) table.now rule pass src.now dst.new result }
{
    pass.value.xor_to(src, dst);
    let page = Part::of(rule.direction.page(src, dst));
    let index = pass.index + 1;
    let offset = table.next(pass.offset, index);
    let value = rule.feed.next_value(f, offset, pass.value, page);
    Pass {
        index,
        offset,
        value,
    }
}

// All blocks but the last, from `src` to `dst`. The answer stands at the last block, and says where
// it begins.
pub fn pass_front<F: Compression>(
    f: &mut F,
    table: &OffsetTable<F>,
    rule: Rule<F>,
    start: Pass<F>,
    src: &[u8],
    dst: &mut [u8],
) -> (Pass<F>, usize)
    requires start { start.index ≡ 1 }
    requires src { length src.now ≤ 4096 }
    requires dst { length dst.old ≡ length src.now }
    ensures kept { F.value f.new ≡ F.value f.old }
    ensures left { length src.now ≤ result.1 + F.WIDTH }
    ensures going { Going F.WIDTH (F.value f.old) table.now rule start src.now dst.new result.0 result.1 }
{
    let w = F::WIDTH;
    let n = src.len();
    let mut pass = start;
    let mut at = 0;
    // Kept by index: of what is written through pieces of `dst` that the library hands out in a
    // loop (`chunks_mut`, `split_at_mut`), nothing is known after the loop.
    while n - at > w {
        pass = turn(f, table, rule, pass, &src[at..at + w], &mut dst[at..at + w]);
        at += w;
    }
    (pass, at)
}

// All blocks from `src` to `dst`.
pub fn pass_all<F: Compression>(
    f: &mut F,
    table: &OffsetTable<F>,
    rule: Rule<F>,
    start: Pass<F>,
    src: &[u8],
    dst: &mut [u8],
)
    requires start { start.index ≡ 1 }
    requires src { length src.now ≤ 4096 }
    requires dst { length dst.old ≡ length src.now }
    ensures kept { F.value f.new ≡ F.value f.old }
    ensures cipher { (L : ℕ → List ℕ) (d : List ℕ) → Entries table.now L → bytes_of start.offset ≡ delta L d 1 → cipher_of rule.direction src.now dst.new ≡ chain (next_by (F.value f.old) rule.feed (delta L d)) 1 (bytes_of start.value) (cut F.WIDTH (page_of rule.direction src.now dst.new)) }
{
    let n = src.len();
    if n == 0 {
        return;
    }
    let (pass, at) = pass_front(f, table, rule, start, src, dst);
    pass.value.xor_to(&src[at..n], &mut dst[at..n]);
}
