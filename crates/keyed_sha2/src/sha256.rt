ghost use Rattle.std.proofs.Common.{rules};

use crate::sha2::{Member, Sha2};

// The compression of SHA-256 under a key.
pub type Sha256 = Sha2<u32, 32>;

impl Member<32> for u32 {
    const FEEDBACK: u16 = 0x0425;

    ghost FEEDBACK = { 0x0425 };

    ghost fits = { Prim.search rules };

    ghost few = { Prim.search rules };

    ghost small = { Prim.search rules };
}
