//! States whose images pass the image check (docs/CHECK.md).
#![tactic(auto)]

pub mod laws;
