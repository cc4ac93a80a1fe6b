//! What a crash may leave of the sizes and bytes of files; definitions and laws, without code that runs (docs/CRASHES.md).
#![tactic(auto)]

pub mod laws;
