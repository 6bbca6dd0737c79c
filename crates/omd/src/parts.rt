// The parts of OMD.
ghost use Rattle.std.specs.Prelude.{◌≡◌, ℕ, ◌+◌, ◌*◌, ◌<◌, ◌≤◌, List, length, if◌then◌else◌};
ghost use Rattle.std.specs.Int.Count.{count_trailing_zeros};
ghost use Rattle.base.specs.Bytes.{xor, digits, double};
ghost use Rattle.compression.specs.Parts.{bytes_of};
ghost use Rattle.frames.specs.Directions.{page_of, cipher_of};
ghost use Rattle.frames.specs.Offsets.{Entries, Filled, delta, star};
ghost use Rattle.omd.specs.Omd.{ad_tag, cipher_from, ending, entry, nonce_offset, tag_from};

use compression::compression::Compression;
use compression::part::Part;
use frames::offsets::OffsetTable;
use frames::pass::{Pass, pass_front};
use frames::rule::{Direction, Feed, Rule};
use frames::sums::{hash, sum_front};

// D(1) and H(1).
// Kept a number with a clause: of a set-up, whose type bounds it, F is lent at the same time. And
// kept apart: here the nonce and below the associated data, each alone.
pub(crate) fn begin<F: Compression>(
    f: &mut F,
    table: &OffsetTable<F>,
    tag_len: usize,
    nonce: &[u8],
) -> Pass<F>
    requires tag { tag_len ≤ 64 }
    requires nonce { length nonce.now ≤ 31 }
    ensures kept { F.value f.new ≡ F.value f.old }
    ensures begun { result.index ≡ 1 }
    ensures offset { (L : ℕ → List ℕ) → Entries table.now L → bytes_of result.offset ≡ delta L (nonce_offset F.WIDTH F.FEEDBACK (F.value f.old) nonce.now) 1 }
    ensures value { bytes_of result.value ≡ F.value f.old (bytes_of result.offset) (digits F.WIDTH (8 * tag_len)) }
{
    let d = Part::compressed(f, Part::padded(nonce), Part::zeros());
    let offset = table.next(d, 1);
    let value = Part::compressed(f, offset, Part::number(8 * tag_len));
    Pass {
        index: 1,
        offset,
        value,
    }
}

// 3·L* for a short last block, 2·L* for a full one.
fn ending_offset<F: Compression>(star: Part<F>, short: bool) -> Part<F>
    ensures { bytes_of result ≡ (if short then xor (double F.FEEDBACK (bytes_of star)) (bytes_of star) else double F.FEEDBACK (bytes_of star)) }
{
    let two = star.double();
    if short { two ^ star } else { two }
}

// The last block from `src` to `dst`, and F of the page's last block.
fn last_block<F: Compression>(
    f: &mut F,
    star: Part<F>,
    direction: Direction,
    pass: Pass<F>,
    src: &[u8],
    dst: &mut [u8],
) -> Part<F>
    requires src { length src.now ≤ F.WIDTH }
    requires dst { length dst.old ≡ length src.now }
    ensures kept { F.value f.new ≡ F.value f.old }
    ensures dst { dst.new ≡ xor src.now (bytes_of pass.value) }
    ensures tag { bytes_of result ≡ ending F.WIDTH F.FEEDBACK (F.value f.old) (bytes_of star) (bytes_of pass.offset) (bytes_of pass.value) (page_of direction src.now dst.new) }
{
    pass.value.xor_to(src, dst);
    let page = direction.page(src, dst);
    let ending = ending_offset(star, src.len() < F::WIDTH);
    Part::compressed(f, pass.value ^ pass.offset ^ ending, Part::padded(page))
}

// Kept as a clause, here and below: that the table is filled, which is a fact of the table and of F
// together.
// The page in `src` to its ciphertext in `dst`, or back; then the page's part of the tag.
pub(crate) fn run_page<F: Compression>(
    f: &mut F,
    table: &OffsetTable<F>,
    direction: Direction,
    start: Pass<F>,
    src: &[u8],
    dst: &mut [u8],
) -> Part<F>
    requires table { Filled F.WIDTH F.FEEDBACK 2 (star F.WIDTH (F.value f.old)) table.now }
    requires start { start.index ≡ 1 }
    requires src { length src.now ≤ 4096 }
    requires dst { length dst.old ≡ length src.now }
    ensures kept { F.value f.new ≡ F.value f.old }
    ensures cipher { (d : List ℕ) → bytes_of start.offset ≡ delta (entry F.WIDTH F.FEEDBACK (F.value f.old)) d 1 → cipher_of direction src.now dst.new ≡ cipher_from F.WIDTH F.FEEDBACK (F.value f.old) d (bytes_of start.value) (page_of direction src.now dst.new) }
    ensures tag { (d : List ℕ) → bytes_of start.offset ≡ delta (entry F.WIDTH F.FEEDBACK (F.value f.old)) d 1 → bytes_of result ≡ tag_from F.WIDTH F.FEEDBACK (F.value f.old) d (bytes_of start.value) (page_of direction src.now dst.new) }
{
    let n = src.len();
    if n == 0 {
        return start.value;
    }
    let rule = Rule {
        direction,
        feed: Feed::Page,
    };
    let (pass, at) = pass_front(f, table, rule, start, src, dst);
    last_block(f, table.star, direction, pass, &src[at..n], &mut dst[at..n])
}

// The offset of the last block of associated data.
fn ad_end<F: Compression>(table: &OffsetTable<F>, short: bool, pass: Pass<F>) -> Part<F>
    requires { pass.index < 255 }
    ensures { (L : ℕ → List ℕ) → Entries table.now L → bytes_of result ≡ (if short then xor (bytes_of pass.offset) (bytes_of table.now.star) else xor (bytes_of pass.offset) (L (count_trailing_zeros 64 (pass.index + 1)))) }
{
    if short {
        pass.offset ^ table.star
    } else {
        table.next(pass.offset, pass.index + 1)
    }
}

// The associated data's part of the tag.
pub(crate) fn sum_ad<F: Compression>(f: &mut F, table: &OffsetTable<F>, ad: &[u8]) -> Part<F>
    requires table { Filled F.WIDTH F.FEEDBACK 2 (star F.WIDTH (F.value f.old)) table.now }
    requires ad { length ad.now ≤ 1024 }
    ensures kept { F.value f.new ≡ F.value f.old }
    ensures sum { bytes_of result ≡ ad_tag F.WIDTH F.FEEDBACK (F.value f.old) ad.now }
{
    let zeros = Part::zeros();
    if ad.is_empty() {
        return zeros;
    }
    let start = Pass {
        index: 0,
        offset: zeros,
        value: zeros,
    };
    let (pass, last) = sum_front(f, table, start, ad);
    let offset = ad_end(table, last.len() < 2 * F::WIDTH, pass);
    pass.value ^ hash(f, offset, last)
}
