// A compression of zero bytes, and the line that is printed of it.
ghost use Rattle.std.specs.Prelude.{◌≡◌, IfOk, Some};
ghost use Rattle.compression.specs.Answers.{answer};
ghost use Rattle.show.specs.Lines.{compressed, zeros_changed};

use crate::answer::Answer;
use base::refusal::Refusal;
use calls::outputs::{BEFORE, changed};
use compression::compression::Compression;
use std::alloc::{AllocError, Global};
use std::fmt;

// What came of a call: the lengths of its three parts, the answer, and how many bytes of the output
// it changed.
#[derive(Clone, Copy)]
pub struct Compressed {
    pub h: usize,
    pub m: usize,
    pub out: usize,
    pub answer: Result<(), Refusal>,
    pub changed: usize,
}

impl Compressed {
    // Compresses zero bytes.
    pub fn from_zeros<F: Compression>(
        heap: Global,
        f: &mut F,
        h: usize,
        m: usize,
        out: usize,
    ) -> Result<Compressed, AllocError>
        ensures kept { F.value f.new ≡ F.value f.old }
        ensures made { IfOk result (λ c. c ≡ record { h = h; m = m; out = out; answer = answer F.WIDTH h m out; changed = zeros_changed F.WIDTH (F.value f.old) h m out }) }
    {
        let left = vec![in heap; 0; h]?;
        let right = vec![in heap; 0; m]?;
        let mut room = vec![in heap; BEFORE; out]?;
        let answer = f.compress(&left, &right, &mut room);
        let changed = changed(&room);
        Ok(Compressed {
            h,
            m,
            out,
            answer,
            changed,
        })
    }
}

impl fmt::Display for Compressed {
    ghost output = { λ c. Some (compressed c) };

    fn fmt<W: fmt::Write>(&self, f: &mut fmt::Formatter<W>) -> fmt::Result {
        let Compressed {
            h,
            m,
            out,
            answer,
            changed,
        } = *self;
        let answer = Answer(answer.map(|()| out));
        write!(f, "compress {h} {m} {out}: {answer}, changed {changed}")
    }
}
