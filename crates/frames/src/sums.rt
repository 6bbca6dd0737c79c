// Sums over blocks of two halves.
ghost use Rattle.std.specs.Prelude.{◌≡◌, ◌+◌, ◌*◌, ◌<◌, ◌≤◌, length};
ghost use Rattle.base.specs.Bytes.{padded};
ghost use Rattle.compression.specs.Parts.{bytes_of};
ghost use Rattle.frames.specs.Chain.{hashed};
ghost use Rattle.frames.specs.Progress.{Absorbed, Summing};

use crate::offsets::OffsetTable;
use crate::pass::Pass;
use compression::compression::Compression;
use compression::part::Part;

// F of the left half under an offset and the right half; a short block is padded.
pub fn hash<F: Compression>(f: &mut F, offset: Part<F>, block: &[u8]) -> Part<F>
    requires { length block.now ≤ 2 * F.WIDTH }
    ensures kept { F.value f.new ≡ F.value f.old }
    ensures hash { bytes_of result ≡ hashed F.WIDTH (F.value f.old) (bytes_of offset) (padded (2 * F.WIDTH) block.now) }
{
    let (left, right) = Part::halves(block);
    Part::compressed(f, left ^ offset, right)
}

// One block more.
fn absorb<F: Compression>(f: &mut F, table: &OffsetTable<F>, pass: Pass<F>, block: &[u8]) -> Pass<F>
    requires index { pass.index < 255 }
    requires block { length block.now ≤ 2 * F.WIDTH }
    ensures kept { F.value f.new ≡ F.value f.old }
    ensures absorbed { Absorbed F.WIDTH (F.value f.old) table.now pass block.now result }
{
    let index = pass.index + 1;
    let offset = table.next(pass.offset, index);
    let value = pass.value ^ hash(f, offset, block);
    Pass {
        index,
        offset,
        value,
    }
}

// The sum over all blocks but the last, and the last block.
pub fn sum_front<'a, F: Compression>(
    f: &mut F,
    table: &OffsetTable<F>,
    start: Pass<F>,
    src: &'a [u8],
) -> (Pass<F>, &'a [u8])
    requires start { start.index ≡ 0 }
    requires src { length src.now ≤ 4096 }
    ensures kept { F.value f.new ≡ F.value f.old }
    ensures left { length result.1.now ≤ 2 * F.WIDTH }
    ensures summing { Summing F.WIDTH (F.value f.old) table.now start src.now result.0 result.1.now }
{
    let size = 2 * F::WIDTH;
    let mut pass = start;
    let mut rest = src;
    while rest.len() > size {
        let (block, more) = rest.split_at(size);
        pass = absorb(f, table, pass, block);
        rest = more;
    }
    (pass, rest)
}
