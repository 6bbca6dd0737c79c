// Internal: what each mode is set up with, its compression function and the length of its tag.
// A length that a mode refuses is refused here.
// Read first: setup.rt.
#![tactic(auto)]

pub mod setup;
