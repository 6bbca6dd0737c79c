// What a pass is made by: its direction, and what feeds its chain.
ghost use Rattle.std.specs.Prelude.{◌≡◌, ⊤};
ghost use Rattle.compression.specs.Parts.{bytes_of};
ghost use Rattle.frames.specs.Directions.{page_of};
ghost use Rattle.frames.specs.Feeds.{follow};

// For callers that know it by this path.
pub use crate::pass::pass_all;
use compression::compression::Compression;
use compression::part::Part;
use std::alloc::AllocError;

// From the page to its ciphertext, or back.
// Kept an enum: one pass goes both ways, and asks it once a block which of two slices is the page.
#[derive(Clone, Copy)]
pub enum Direction {
    Seal,
    Open,
}

// What the next chaining value is made from, under its offset: the last one and the page's block,
// or two parts that stay.
// Kept an enum: as an `Option` it would not say which is which, and as a trait it would put one
// more type into every pass.
pub enum Feed<F: Compression> {
    Page,
    Fixed(Part<F>, Part<F>),
}

// How a pass goes.
pub struct Rule<F: Compression> {
    pub direction: Direction,
    pub feed: Feed<F>,
}

// Written out, as for `Part`, and so below.
impl<F: Compression> Copy for Feed<F> {}

impl<F: Compression> Clone for Feed<F> {
    ghost is_clone = { λ x y. y ≡ x };

    ghost is_infallible = { λ _. ⊤ };

    fn clone(&self) -> Result<Feed<F>, AllocError> {
        Ok(*self)
    }
}

impl<F: Compression> Copy for Rule<F> {}

impl<F: Compression> Clone for Rule<F> {
    ghost is_clone = { λ x y. y ≡ x };

    ghost is_infallible = { λ _. ⊤ };

    fn clone(&self) -> Result<Rule<F>, AllocError> {
        Ok(*self)
    }
}

impl Direction {
    // Which is the page's, where `source` is read and `target` was written.
    pub fn page<'a>(self, source: &'a [u8], target: &'a [u8]) -> &'a [u8]
        ensures { result.now ≡ page_of self source.now target.now }
    {
        match self {
            Direction::Seal => source,
            Direction::Open => target,
        }
    }
}

impl<F: Compression> Feed<F> {
    // The next chaining value, from the last one and the page's block.
    pub(crate) fn next_value(self, f: &mut F, offset: Part<F>, h: Part<F>, page: Part<F>) -> Part<F>
        ensures kept { F.value f.new ≡ F.value f.old }
        ensures value { bytes_of result ≡ follow (F.value f.old) self (bytes_of offset) (bytes_of h) (bytes_of page) }
    {
        match self {
            Feed::Page => Part::compressed(f, h ^ offset, page),
            Feed::Fixed(v, m) => Part::compressed(f, v ^ offset, m),
        }
    }
}
