// What is said of one page that is sealed and opened again.
ghost use Rattle.std.specs.Prelude.{◌≡◌, ◌≤◌, IfOk, length, string_bytes};
ghost use Rattle.scheme.specs.Answers.{seal_fault};
ghost use Rattle.show.specs.Lines.{Told};

use crate::to_hex;
use calls::inputs::Inputs;
use calls::trip::round_trip;
use scheme::scheme::Scheme;
use std::alloc::{AllocError, Global};

// Room for the longest body.
const ROOM: usize = 4096 + 64;

// The body in hexadecimal, or what is said in its place.
pub fn tell<S: Scheme>(heap: Global, scheme: &mut S, inputs: &Inputs) -> Result<String, AllocError>
    ensures kept { S.meaning scheme.new ≡ S.meaning scheme.old }
    ensures stays { S.layers scheme.new ≡ S.layers scheme.old }
    ensures told { IfOk result (λ s. Told (S.meaning scheme.old) inputs.now.nonce.items inputs.now.ad.items inputs.now.page.items (string_bytes s) (seal_fault (S.meaning scheme.old).limits inputs.now.nonce.items inputs.now.ad.items inputs.now.page.items 4160)) }
{
    let Inputs { nonce, ad, page } = inputs;
    let mut body = vec![in heap; 0; ROOM]?;
    // No scheme takes a longer page.
    let mut back = vec![in heap; 0; page.len().min(ROOM)]?;
    tell_in(heap, scheme, nonce, ad, page, &mut body, &mut back)
}

// The same, by these buffers.
// Kept apart: the three parts of the inputs, so that clauses speak of slices.
fn tell_in<S: Scheme>(
    heap: Global,
    scheme: &mut S,
    nonce: &[u8],
    ad: &[u8],
    page: &[u8],
    body: &mut [u8],
    back: &mut [u8],
) -> Result<String, AllocError>
    requires { length page.now ≤ (S.meaning scheme.old).limits.page → length page.now ≤ length back.old }
    ensures kept { S.meaning scheme.new ≡ S.meaning scheme.old }
    ensures stays { S.layers scheme.new ≡ S.layers scheme.old }
    ensures told { IfOk result (λ s. Told (S.meaning scheme.old) nonce.now ad.now page.now (string_bytes s) (seal_fault (S.meaning scheme.old).limits nonce.now ad.now page.now (length body.old))) }
{
    match round_trip(scheme, nonce, ad, page, body, back) {
        Ok(n) => to_hex(heap, &body[..n]),
        Err(e) => format!(in heap; "{e}"),
    }
}
