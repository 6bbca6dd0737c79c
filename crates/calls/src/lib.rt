// Calls that programs and tests make of any scheme, what they call with, and what they count.
// The product does not stand on this crate.
// Read first: specs/Trips.antt, then trip.rt.
#![tactic(auto)]

pub mod inputs;
pub mod outputs;
pub mod trip;
