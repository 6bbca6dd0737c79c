ghost use Rattle.std.specs.Prelude.{◌≡◌, ℕ, List, length, is_ok, if◌then◌else◌};
ghost use Rattle.base.specs.Bytes.{zeros};
ghost use Rattle.compression.specs.Answers.{key_answer};

use crate::compression::{Compression, LAYER};
use base::refusal::{Cause, Refusal};

// The fewest bytes of a key.
const SHORTEST_KEY: usize = 10;

// A compression function that takes a key. `under` is what it means under each key.
pub trait Keyed: Compression {
    ghost under: { List ℕ → List ℕ → List ℕ → List ℕ };

    // Holds the built-in key: 32 zero bytes.
    fn new() -> Self
        ensures { Self.value result ≡ under (zeros 32) };

    // Takes a key of 10 bytes to the width, and then means what it means under that key. Refuses
    // any other, and keeps the old key.
    fn set_key(&mut self, key: &[u8]) -> Result<(), Refusal>
        ensures answer { result ≡ key_answer Self.WIDTH (length key.now) }
        ensures meaning { Self.value self.new ≡ (if is_ok result then under key.now else Self.value self.old) };
}

// The answer to a key of `len` bytes, for a function of this width.
pub fn check_key(width: usize, len: usize) -> Result<(), Refusal>
    ensures { result ≡ key_answer width len }
{
    if len < SHORTEST_KEY || len > width {
        return Err(Refusal {
            cause: Cause::KeyLength,
            layer: LAYER,
            figure: len,
        });
    }
    Ok(())
}
