//! The intent log on a block device: batches of after-images are written between its tail and its
//! head, and count from the write of the head sector on.
#![tactic(auto)]

mod batch;
mod body;
mod descriptor;
mod head;
mod laws;
mod log;
mod read;
mod stage;

pub use batch::{AfterImage, Batch};
pub use body::log_length;
pub use head::head_sector;
pub use laws::{batch_laws, body_laws, head_laws, home_laws, image_laws, note_laws, order_laws};
pub use log::Log;
pub use read::{Descriptor, Ends, read_descriptor, read_head};
pub use stage::log_sector;

#[cfg(test)]
mod tests;
