//! The replay of a stopped image's log: what the log holds is carried home, and the image is left clean.
#![tactic(auto)]

mod image_check;
mod laws;
mod load;
mod read;
mod refusal;
mod top;
mod writing;

pub use image_check::{CheckRefusal, Checked, CleanFront, check, check_clean_front};
pub use laws::{clean_front_laws, never_refused};
pub use refusal::ReplayRefusal;
pub use top::{Recovered, replay};

#[cfg(test)]
mod tests;
