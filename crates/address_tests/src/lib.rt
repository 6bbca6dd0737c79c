// The address layer at work: over a mode, in piles, and over a scheme that takes little.
// `narrow` is such a scheme. For tests alone.
#![tactic(auto)]

pub mod narrow;
#[cfg(test)]
mod tests;
