//! Where everything stands on the device, and how it is spelled in bytes (docs/LAYOUT.md).
#![tactic(auto)]

pub mod fields;
mod sheet;
mod spelling;
mod superblock;
mod volume;

pub use sheet::Sheet;
pub use spelling::{log_fields, log_spelling, super_spelling};
pub use superblock::{BadSuper, Super, sectors_needed};
pub use volume::{Volume, block_sector, geom_places, layout1_sizes, places, super_places};
