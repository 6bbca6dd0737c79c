// The vocabulary that everything above rests on: strings of bytes in place, and refusals.
// Refusals (`refusal`) belong to the product's surface. Slices are internal: some of their
// functions ask a length of their caller.
// Read first: specs/Bytes.antt, then slices.rt.
#![tactic(auto)]

pub mod refusal;
pub mod slices;
