//! What a mount means: the tree, what a call does, which histories are legal, and what an image reads as.
#![tactic(auto)]

pub mod allowed;
pub mod edits;
pub mod files;
pub mod images;
pub mod laws;
pub mod reads;
pub mod states;
pub mod waiting;
