// Internal: what the modes share. The table of offsets, the pass over a page's blocks, and the sum
// over double blocks. Its functions ask lengths of their callers, which are the modes.
// Read first: specs/Offsets.antt and specs/Chain.antt.
#![tactic(auto)]

pub mod offsets;
pub mod pass;
pub mod rule;
pub mod sums;
