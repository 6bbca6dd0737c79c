ghost use Rattle.std.proofs.Common.{rules};

use crate::sha2::{Member, Sha2};

// The compression of SHA-512 under a key.
pub type Sha512 = Sha2<u64, 64>;

impl Member<64> for u64 {
    const FEEDBACK: u16 = 0x0125;

    ghost FEEDBACK = { 0x0125 };

    ghost fits = { Prim.search rules };

    ghost few = { Prim.search rules };

    ghost small = { Prim.search rules };
}
