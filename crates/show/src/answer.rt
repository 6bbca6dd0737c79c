// An answer, as programs print it.
ghost use Rattle.std.specs.Prelude.{Some};
ghost use Rattle.show.specs.Lines.{answered};

use base::refusal::Refusal;
use std::fmt;

// What a call answers: `ok` and a length, or the refusal.
#[derive(Clone, Copy)]
pub struct Answer(pub Result<usize, Refusal>);

impl fmt::Display for Answer {
    ghost output = { λ a. Some (answered a.0) };

    fn fmt<W: fmt::Write>(&self, f: &mut fmt::Formatter<W>) -> fmt::Result {
        match self.0 {
            Ok(n) => write!(f, "ok {n}"),
            Err(refusal) => write!(f, "{refusal}"),
        }
    }
}
