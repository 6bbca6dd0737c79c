// Layer 0: a keyed compression function, the setting of its key, and the trial function.
// To swap the function, write another `impl Compression` like that of `Trial`: nothing above changes.
// `Part` is internal, for the modes: some of its functions ask a length of their caller.
// Read first: compression.rt, then specs/Answers.antt.
#![tactic(auto)]

pub mod compression;
pub mod keyed;
pub mod part;
pub mod trial;
