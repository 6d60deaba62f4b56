//! A law on meanings: what the bodies of code mean, which keep what they see among their locals, is the meaning. There is no code here.
#![tactic(auto)]

mod meanings;

pub use meanings::meanings_are_one;
