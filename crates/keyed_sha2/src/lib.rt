// SHA-256 and SHA-512 as keyed compression functions: F(H, M) is the compression of FIPS 180-4 on
// the chaining value H and the block of key, zeros, M; key and zeros fill the first half.
// The product's surface: nothing here asks anything of its caller.
// Read first: specs/Keys.antt, then `Compression` and `Keyed` in the crate compression.
#![tactic(auto)]

pub mod sha2;
pub mod sha256;
pub mod sha512;
