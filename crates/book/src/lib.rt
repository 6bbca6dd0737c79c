// What the shown programs do with the pages of a small book: seal them, open them, and print what
// came of it. No contract says what is printed, nor when the system refuses to print: what the
// programs print is compared in the gate. The product does not stand on this crate.
// Read first: specs/Pages.antt, then pages.rt.
#![tactic(auto)]

pub mod pages;
