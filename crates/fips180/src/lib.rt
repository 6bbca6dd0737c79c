// The compression of SHA-256 and of SHA-512 on words and blocks, by one code over the word type.
// Internal: functions here ask lengths of their caller. The keyed functions over it are in `keyed_sha2`.
// Read first: specs/Words.antt, then specs/Compression.antt, beside FIPS 180-4.
#![tactic(auto)]

pub mod bits;
pub mod block;
pub mod rounds;
pub mod state;
pub mod tables;
pub mod word;
