//! The states that sound images say (docs/CHECK.md).
#![tactic(auto)]

pub mod laws;
