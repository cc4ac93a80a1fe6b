//! The handles that the sessions have open.
#![tactic(auto)]

mod handles;

pub use handles::{HandleRefusal, Handles};

#[cfg(test)]
mod tests;
