// Parts, and what the modes make of them, sent and shared over a function that may be neither,
// which is `local`. For tests alone.
#![tactic(auto)]

pub mod local;
#[cfg(test)]
mod tests;
