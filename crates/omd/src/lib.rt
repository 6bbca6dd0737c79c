// The mode OMD over any compression function, as a scheme.
// `omd` is the product's surface. `parts` is internal.
// Read first: specs/Omd.antt, beside the text of OMD 1.0.
#![tactic(auto)]

pub mod omd;
mod parts;
