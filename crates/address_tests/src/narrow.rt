// A scheme from outside the product that takes associated data of at most 5 bytes.
ghost use Rattle.std.specs.Prelude.{◌≡◌, ◌<◌, ◌≤◌, MatchResult};
ghost use Rattle.base.specs.Refusals.{refusal};
ghost use Rattle.base.specs.declared.refusal.Cause.TheVariants.{AdTooLong};
ghost use Rattle.address_tests.specs.Narrow.{narrow_layers, narrowed};
ghost use Rattle.address_tests.specs.Narrows.{narrow_lawful};

use base::refusal::{Cause, Refusal};
use scheme::limits::Limits;
use scheme::scheme::Scheme;

const LONGEST_AD: usize = 5;

// The layer that its refusals name.
const LAYER: u8 = 9;

// Any scheme, with less associated data.
#[derive(Drop)]
pub struct Narrow<S: Scheme> {
    below: S,
}

impl<S: Scheme> Narrow<S> {
    pub fn new(below: S) -> Self
        ensures { narrowed (S.meaning result.below) ≡ narrowed (S.meaning below) }
    {
        Narrow { below }
    }

    // Refuses associated data of `len` bytes where that is too long.
    fn check_ad(&self, len: usize) -> Result<(), Refusal>
        ensures { MatchResult result (λ _. len ≤ (narrowed (S.meaning self.now.below)).limits.ad) (λ e. (e ≡ refusal AdTooLong 9 len) × ((narrowed (S.meaning self.now.below)).limits.ad < len)) }
    {
        if len > self.limits().ad {
            return Err(Refusal {
                cause: Cause::AdTooLong,
                layer: LAYER,
                figure: len,
            });
        }
        Ok(())
    }
}

impl<S: Scheme> Scheme for Narrow<S> {
    ghost meaning = { λ s. narrowed (S.meaning s.below) };

    ghost layers = { λ s. narrow_layers (S.layers s.below) };

    ghost lawful = { λ s. narrow_lawful (S.meaning s.below) (S.lawful s.below) };

    fn limits(&self) -> Limits {
        let below = self.below.limits();
        Limits {
            tag: below.tag,
            ad: below.ad.min(LONGEST_AD),
            page: below.page,
        }
    }

    fn tag<'a>(&self, body: &'a [u8]) -> Option<&'a [u8]> {
        self.below.tag(body)
    }

    fn open(
        &mut self,
        nonce: &[u8],
        ad: &[u8],
        body: &[u8],
        out: &mut [u8],
    ) -> Result<usize, Refusal> {
        self.check_ad(ad.len())?;
        self.below.open(nonce, ad, body, out)
    }

    fn seal(
        &mut self,
        nonce: &[u8],
        ad: &[u8],
        page: &[u8],
        out: &mut [u8],
    ) -> Result<usize, Refusal> {
        self.check_ad(ad.len())?;
        self.below.seal(nonce, ad, page, out)
    }
}
