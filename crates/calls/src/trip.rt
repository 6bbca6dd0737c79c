// A page is sealed and opened again.
ghost use Rattle.std.specs.Prelude.{◌≡◌, ◌≤◌, Some, IfOk, length, take};
ghost use Rattle.calls.specs.Trips.{Tripped, shown};

use base::refusal::Refusal;
use scheme::scheme::Scheme;
use std::fmt;

// Why a page did not come back.
#[derive(Clone, Copy, PartialEq, Eq, Debug)]
pub enum TripError {
    Refused(Refusal),
    // Another page came back, or none. The law of a scheme says that this cannot be; who runs a
    // program looks all the same.
    Differs,
}

impl From<Refusal> for TripError {
    ghost use Rattle.calls.specs.declared.trip.TripError.TheVariants.{Refused};

    ghost from_gives = { λ e t. t ≡ Refused e };

    fn from(refusal: Refusal) -> Self {
        Self::Refused(refusal)
    }
}

impl fmt::Display for TripError {
    ghost output = { λ e. Some (shown e) };

    fn fmt<W: fmt::Write>(&self, f: &mut fmt::Formatter<W>) -> fmt::Result {
        match self {
            TripError::Refused(refusal) => write!(f, "{refusal}"),
            TripError::Differs => write!(f, "differs"),
        }
    }
}

// Kept apart: nonce, associated data and page, which tests have as slices of their own.
// Seals `page` into `body`, opens that into `back`, and answers the body's length. `back` has room
// for the page, unless it is longer than any that the scheme takes.
pub fn round_trip<S: Scheme>(
    scheme: &mut S,
    nonce: &[u8],
    ad: &[u8],
    page: &[u8],
    body: &mut [u8],
    back: &mut [u8],
) -> Result<usize, TripError>
    requires { length page.now ≤ (S.meaning scheme.old).limits.page → length page.now ≤ length back.old }
    ensures kept { S.meaning scheme.new ≡ S.meaning scheme.old }
    ensures stays { S.layers scheme.new ≡ S.layers scheme.old }
    ensures body { IfOk result (λ k. (k ≤ length body.new) × (take k body.new ≡ (S.meaning scheme.old).E nonce.now ad.now page.now)) }
    ensures tripped { Tripped (S.meaning scheme.old) nonce.now ad.now page.now body.old back.old result body.new back.new }
{
    let n = scheme.seal(nonce, ad, page, body)?;
    match scheme.open(nonce, ad, &body[..n], back) {
        Ok(k) if &back[..k] == page => Ok(n),
        _ => Err(TripError::Differs),
    }
}
