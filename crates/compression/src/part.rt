// A part of a compression function: as many bytes as its width, as a value.
ghost use Rattle.std.specs.Prelude.{◌≡◌, length, take, ⊤};

use crate::compression::Compression;
use std::alloc::AllocError;
use std::marker::PhantomData;

pub mod ops;

// The longest width.
const LONGEST: usize = 64;

// The first bytes are the part; those behind the width do not count. Kept longer than most parts:
// without a heap it is an array, and an array cannot take its length from F.
pub struct Part<F: Compression> {
    bytes: [u8; LONGEST],
    of: PhantomData<F>,
    ghost long: { length (take F.WIDTH bytes) ≡ F.WIDTH },
}

// Kept by hand: a derive asks that F itself can be copied, and a function with a key must not be.
impl<F: Compression> Copy for Part<F> {}

impl<F: Compression> Clone for Part<F> {
    ghost is_clone = { λ x y. y ≡ x };

    ghost is_infallible = { λ _. ⊤ };

    fn clone(&self) -> Result<Part<F>, AllocError> {
        Ok(*self)
    }
}

// Nothing of F is kept, so a part may go wherever bytes may.
unsafe impl<F: Compression> Send for Part<F> {}

unsafe impl<F: Compression> Sync for Part<F> {}
