// The modes serial and counter over any compression function, as schemes. They read a page twice,
// for its tag and for its ciphertext, and are for stations that may repeat a nonce.
// `modes` is the product's surface. `keystream` tells the two modes apart, for their types alone.
// `kinds` and `parts` are internal.
// Read first: specs/TwoPass.antt.
#![tactic(auto)]

pub mod keystream;
mod kinds;
pub mod modes;
mod parts;
