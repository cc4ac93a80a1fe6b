//! The sectors of the metadata as bytes: inodes, directory blocks and bitmaps (docs/LAYOUT.md).
#![tactic(auto)]

mod bitmap;
mod directory;
mod extent;
mod inode;
mod map;
mod part;

pub use bitmap::{bits_spelling, read_bits, write_bits};
pub use directory::{DirReadRefusal, dir_spelling, read_dir, write_dir};
pub use inode::{Bad, inode_sector, inode_spelling, read_inode, read_inode_with, write_inode};
pub use map::{MapRefusal, MapValue, map_spelling, read_map, write_extents, write_map};
pub use part::sector_part;
