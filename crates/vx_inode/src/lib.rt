//! The inodes of a mount by their numbers, and the rules of a file's attributes.
#![tactic(auto)]

mod attributes;
mod table;

pub use attributes::{BadAttr, CheckAttrs};
pub use table::{InodeTable, MakeRefusal, TooManyLinks};

#[cfg(test)]
mod tests;
