//! The check of an image and the making of one, from the words to the line that is printed.
#![tactic(auto)]

mod end;
mod output;
mod top;
mod words;

pub use top::{AdminDone, admin};
pub use words::image_of;

#[cfg(test)]
mod tests;
