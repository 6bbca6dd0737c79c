// What a mode is set up with.
ghost use Rattle.std.specs.Prelude.{◌≡◌, ◌≤◌, is_ok, if◌then◌else◌};
ghost use Rattle.scheme.specs.Answers.{tag_answer};

use base::refusal::Refusal;
use compression::compression::Compression;
use scheme::limits::check_tag_len;

// Its compression function, by value, and the length of its tag.
#[derive(Drop)]
pub struct Setup<F: Compression> {
    pub f: F,
    pub tag_len: usize,
    ghost low: { 4 ≤ tag_len },
    ghost high: { tag_len ≤ F.WIDTH },
}

impl<F: Compression> Setup<F> {
    // A mode over `f`, with a tag of 16 bytes.
    pub fn new(f: F) -> Self
        ensures f { result.f ≡ f }
        ensures tag { result.tag_len ≡ 16 }
    {
        Setup { f, tag_len: 16 }
    }

    // Sets the tag's length, or refuses one outside 4 to the width; the old one then stays.
    pub fn set_tag_len(&mut self, n: usize) -> Result<(), Refusal>
        ensures answer { result ≡ tag_answer F.WIDTH n }
        ensures f { self.new.f ≡ self.old.f }
        ensures tag { self.new.tag_len ≡ (if is_ok result then n else self.old.tag_len) }
    {
        check_tag_len(F::WIDTH, n)?;
        self.tag_len = n;
        Ok(())
    }
}
