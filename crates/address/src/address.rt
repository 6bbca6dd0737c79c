// The address layer over any scheme.
ghost use Rattle.std.specs.Prelude.{◌≡◌, ◌+◌, ◌≤◌, ◌++◌, length, take, MatchResult};
ghost use Rattle.address.specs.Address.{Joined, TooLong, addressed, address_layers, means, names};
ghost use Rattle.address.specs.Addresses.{addressed_lawful};

use base::refusal::{Cause, Refusal};
use scheme::limits::{LONGEST_AD, Limits};
use scheme::scheme::Scheme;

// The length of an address.
pub const ADDRESS_LEN: usize = 16;

// The layer of addresses.
const LAYER: u8 = 2;

// A scheme for one machine: its associated data begins with the address of that machine.
#[derive(Drop)]
pub struct Addressed<S: Scheme> {
    below: S,
    address: [u8; ADDRESS_LEN],
}

// The leftmost bytes of `address`, at most `longest`.
fn cut_to(address: &[u8], longest: usize) -> &[u8]
    ensures { result.now ≡ take longest address.now }
{
    &address[..longest.min(address.len())]
}

// Writes `address` and then `ad` to the front of `room`, and answers that front.
fn join<'a>(address: &[u8], ad: &[u8], room: &'a mut [u8]) -> &'a [u8]
    requires { length address.now + length ad.now ≤ length room.old }
    ensures { result.now ≡ address.now ++ ad.now }
{
    let n = address.len();
    let end = n + ad.len();
    room[..n].copy_from_slice(address);
    room[n..end].copy_from_slice(ad);
    &room[..end]
}

impl<S: Scheme> Addressed<S> {
    // The scheme `below` for the machine at `address`.
    pub fn new(below: S, address: [u8; ADDRESS_LEN]) -> Self
        ensures means { means S.meaning result ≡ addressed address (S.meaning below) }
        ensures layers { names S.layers result ≡ address_layers (S.layers below) }
    {
        Addressed { below, address }
    }

    // Writes the associated data for the scheme below to `room`, and answers it; or refuses
    // associated data that is too long.
    fn prepare<'a>(&self, ad: &[u8], room: &'a mut [u8; LONGEST_AD]) -> Result<&'a [u8], Refusal>
        ensures { MatchResult result (λ given. Joined (S.meaning self.now.below) self.now.address ad.now given.now) (λ e. TooLong (S.meaning self.now.below) self.now.address ad.now e) }
    {
        let longest = self.below.limits().ad;
        let address = cut_to(&self.address, longest);
        if ad.len() > longest - address.len() {
            return Err(Refusal {
                cause: Cause::AdTooLong,
                layer: LAYER,
                figure: ad.len(),
            });
        }
        Ok(join(address, ad, room))
    }
}

impl<S: Scheme> Scheme for Addressed<S> {
    ghost meaning = { λ s. means S.meaning s };

    ghost layers = { λ s. names S.layers s };

    ghost lawful = { λ s. addressed_lawful s.address (S.meaning s.below) (S.lawful s.below) };

    fn limits(&self) -> Limits {
        let below = self.below.limits();
        let address = cut_to(&self.address, below.ad);
        Limits {
            ad: below.ad - address.len(),
            ..below
        }
    }

    fn tag<'a>(&self, body: &'a [u8]) -> Option<&'a [u8]> {
        self.below.tag(body)
    }

    fn open(
        &mut self,
        nonce: &[u8],
        ad: &[u8],
        body: &[u8],
        out: &mut [u8],
    ) -> Result<usize, Refusal> {
        let mut room = [0; LONGEST_AD];
        let ad = self.prepare(ad, &mut room)?;
        self.below.open(nonce, ad, body, out)
    }

    fn seal(
        &mut self,
        nonce: &[u8],
        ad: &[u8],
        page: &[u8],
        out: &mut [u8],
    ) -> Result<usize, Refusal> {
        let mut room = [0; LONGEST_AD];
        let ad = self.prepare(ad, &mut room)?;
        self.below.seal(nonce, ad, page, out)
    }
}
