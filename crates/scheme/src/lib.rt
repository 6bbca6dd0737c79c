// A scheme: what seals pages and opens them, known by its meaning alone.
// The trait `Scheme`, `Limits` and `End` belong to the product's surface. `mode` and `inputs` are
// internal: how each mode is a scheme. A mode's functions ask lengths of their callers.
// Read first: specs/Meaning.antt and specs/Answers.antt, then scheme.rt.
#![tactic(auto)]

mod guard;
pub mod inputs;
pub mod limits;
pub mod mode;
pub mod scheme;
