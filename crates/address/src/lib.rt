// Records for one machine: a scheme whose associated data begins with the machine's address.
// All of it is the product's surface. An addressed scheme is a scheme again, so addresses pile.
// Read first: specs/Address.antt.
#![tactic(auto)]

pub mod address;
