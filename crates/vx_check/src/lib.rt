//! The check of an image's metadata (docs/CHECK.md).
#![tactic(auto)]

mod bitmaps;
mod chain;
mod check;
mod claims;
mod contents;
mod counts;
mod directory;
mod extents;
mod inode;
mod inodes;
mod kept;
mod links;
mod names;
mod overlaid;
mod reaching;
mod reader;
mod remembered;
mod slots;
mod stop;

pub use check::{Found, check_metadata};
pub use contents::Contents;
pub use overlaid::check_overlaid;
pub use reaching::Targets;
pub use reader::{Fault, Sectors};
pub use remembered::read_metadata;
pub use stop::Stop;

#[cfg(test)]
mod tests;
