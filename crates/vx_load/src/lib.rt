//! The metadata of an image, loaded into memory for a mount (docs/CHECK.md).
#![tactic(auto)]

mod loading;
mod plain;
mod refusal;

pub use loading::{Loaded, load};
pub use refusal::LoadRefusal;

#[cfg(test)]
mod tests;
