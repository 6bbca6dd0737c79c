// The words of SHA-256 and of SHA-512.
ghost use Rattle.std.specs.Prelude.{◌≡◌, ◌≤◌, length, map};
ghost use Rattle.fips180.specs.Words.{big_sigma, small_sigma};
ghost use Rattle.fips180.specs.Constants.{constants256, constants512};
ghost use Rattle.std.proofs.Math.Path.{refl};
ghost use Rattle.std.proofs.Common.{rules};

use crate::bits::{Bits, big_sigma as three_turns, small_sigma as two_turns};
use crate::tables::{K256, K512};

// What differs between the two beside the length of a word: the round constants, and the distances
// of the four functions Σ and σ.
pub trait Word: Bits + 'static {
    // K(0), K(1) and so on: one for each round.
    fn constants() -> &'static [Self]
        ensures { map Self.val result.now ≡ Self.sizes.constants };

    // Σ0 and Σ1.
    fn big_sigma0(self) -> Self
        ensures { Self.val result ≡ big_sigma Self.sizes Self.sizes.big0 (Self.val self) };

    fn big_sigma1(self) -> Self
        ensures { Self.val result ≡ big_sigma Self.sizes Self.sizes.big1 (Self.val self) };

    // σ0 and σ1.
    fn small_sigma0(self) -> Self
        ensures { Self.val result ≡ small_sigma Self.sizes Self.sizes.small0 (Self.val self) };

    fn small_sigma1(self) -> Self
        ensures { Self.val result ≡ small_sigma Self.sizes Self.sizes.small1 (Self.val self) };

    ghost enough: { 16 ≤ Self.sizes.rounds };

    ghost table: { length Self.sizes.constants ≡ Self.sizes.rounds };
}

// Kept: an impl for each type. They name constants and distances, and nothing else.
impl Word for u32 {
    ghost enough = { Prim.search rules };

    ghost table = { unfold constants256 in refl };

    #[tactic(auto, unfolding(crate::specs::Constants::constants256))]
    fn constants() -> &'static [u32] {
        &K256
    }

    fn big_sigma0(self) -> u32 {
        three_turns(self, 2, 13, 22)
    }

    fn big_sigma1(self) -> u32 {
        three_turns(self, 6, 11, 25)
    }

    fn small_sigma0(self) -> u32 {
        two_turns(self, 7, 18, 3)
    }

    fn small_sigma1(self) -> u32 {
        two_turns(self, 17, 19, 10)
    }
}

impl Word for u64 {
    ghost enough = { Prim.search rules };

    ghost table = { unfold constants512 in refl };

    #[tactic(auto, unfolding(crate::specs::Constants::constants512))]
    fn constants() -> &'static [u64] {
        &K512
    }

    fn big_sigma0(self) -> u64 {
        three_turns(self, 28, 34, 39)
    }

    fn big_sigma1(self) -> u64 {
        three_turns(self, 14, 18, 41)
    }

    fn small_sigma0(self) -> u64 {
        two_turns(self, 1, 8, 7)
    }

    fn small_sigma1(self) -> u64 {
        two_turns(self, 19, 61, 6)
    }
}
