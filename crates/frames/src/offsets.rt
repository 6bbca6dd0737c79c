// L* and the table of offsets.
ghost use Rattle.std.specs.Prelude.{◌≡◌, ℕ, ◌<◌, ◌≤◌, List, ◌++◌, length, drop, ⊤};
ghost use Rattle.std.specs.Int.Count.{count_trailing_zeros};
ghost use Rattle.base.specs.Bytes.{xor, doubled};
ghost use Rattle.compression.specs.Parts.{bytes_of};
ghost use Rattle.frames.specs.Offsets.{Doublings, Entries, Filled, star};

use base::slices::xor_into;
use compression::compression::Compression;
use compression::part::Part;
use std::alloc::AllocError;

// L*, and L[0] to L[7]: enough for 255 blocks.
pub struct OffsetTable<F: Compression> {
    pub star: Part<F>,
    pub entries: [Part<F>; 8],
}

// Written out, as for `Part`.
impl<F: Compression> Copy for OffsetTable<F> {}

impl<F: Compression> Clone for OffsetTable<F> {
    ghost is_clone = { λ x y. y ≡ x };

    ghost is_infallible = { λ _. ⊤ };

    fn clone(&self) -> Result<OffsetTable<F>, AllocError> {
        Ok(*self)
    }
}

// `first` doubled n times.
fn raise<F: Compression>(first: Part<F>, n: usize) -> Part<F>
    ensures { bytes_of result ≡ doubled F.FEEDBACK n (bytes_of first) }
{
    let mut next = first;
    for _ in 0..n {
        next = next.double();
    }
    next
}

// `first`, and then each entry twice the one before.
fn doublings<F: Compression>(first: Part<F>) -> [Part<F>; 8]
    ensures { Doublings F.FEEDBACK (bytes_of first) 8 result }
{
    let mut next = first;
    let mut entries = [first; 8];
    for entry in entries.iter_mut() {
        *entry = next;
        next = next.double();
    }
    entries
}

impl<F: Compression> OffsetTable<F> {
    // The table of a mode whose L[0] is L* doubled `start` times.
    pub fn filled(f: &mut F, start: usize) -> OffsetTable<F>
        ensures kept { F.value f.new ≡ F.value f.old }
        ensures filled { Filled F.WIDTH F.FEEDBACK start (star F.WIDTH (F.value f.old)) result }
    {
        let star = Part::compressed(f, Part::zeros(), Part::zeros());
        OffsetTable {
            star,
            entries: doublings(raise(star, start)),
        }
    }

    // D(i) from D(i − 1), in place, whatever its length. What is longer than an entry keeps what
    // stands behind that.
    pub fn next_into(&self, offset: &mut [u8], i: usize)
        requires { (1 ≤ i) × (i < 256) }
        ensures front { (L : ℕ → List ℕ) → Entries self.now L → offset.new ≡ xor offset.old (L (count_trailing_zeros 64 i)) ++ drop (length (L (count_trailing_zeros 64 i))) offset.old }
        ensures whole { (L : ℕ → List ℕ) → Entries self.now L → length offset.old ≤ length (L (count_trailing_zeros 64 i)) → offset.new ≡ xor offset.old (L (count_trailing_zeros 64 i)) }
    {
        let n = i.trailing_zeros() as usize;
        let entry = &self.entries[n];
        xor_into(offset, entry.as_slice());
    }

    // D(i) from D(i − 1).
    pub fn next(&self, offset: Part<F>, i: usize) -> Part<F>
        requires { (1 ≤ i) × (i < 256) }
        ensures { (L : ℕ → List ℕ) → Entries self.now L → bytes_of result ≡ xor (bytes_of offset) (L (count_trailing_zeros 64 i)) }
    {
        let w = F::WIDTH;
        // As long as the longest width.
        let mut room = [0; 64];
        let next = &mut room[..w];
        offset.write_front(next);
        self.next_into(next, i);
        Part::front(room)
    }
}
