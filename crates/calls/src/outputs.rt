// Output buffers before a call and after it.
ghost use Rattle.std.specs.Prelude.{◌≡◌, not, ◌==◌, count_by};

// What each byte of an output holds before a call.
pub const BEFORE: u8 = 0xaa;

// How many bytes are no longer as they were.
pub fn changed(out: &[u8]) -> usize
    ensures { result ≡ count_by (λ b. not (b == 0xaa)) out.now }
{
    out.iter().filter(|b| **b != BEFORE).count()
}
