//! What both programs do at the edge to the operating system: their words, their standard streams, and the file of an image.
#![tactic(auto)]

mod image;
mod message;
mod script;
mod streams;
mod words;

pub use image::{ImageError, open_image, open_or_make_image};
pub use message::{asks_for_usage, cause_of, complain};
pub use script::{CopyingSource, line_of};
pub use streams::{StandardStreams, hold_standard_streams};
pub use words::{CommandLine, command_line};

#[cfg(test)]
mod tests;
