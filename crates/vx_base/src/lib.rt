//! The types that every crate of the file system speaks of.
#![tactic(auto)]

mod bytes;
mod call;
mod copies;
mod event;
mod geom;
mod history;
mod inode;
mod kind;
mod lines;
mod mode;
mod num_list;
mod numbers;
mod refusal;
mod reply;
mod sink;
mod source;
mod waits;

pub use bytes::{Bytes, Name, Names};
pub use call::{Call, ExtAttrs, Flag, Payload, Tunable};
pub use copies::copy_of_reply;
pub use event::Event;
pub use geom::Geom;
pub use history::History;
pub use inode::{DirEntry, DirValue, Extent, Inode, InodeValue};
pub use kind::{FileKind, Kind};
pub use lines::LineLists;
pub use mode::{ConvOSync, Logging, MinCache, WriteClass};
pub use num_list::NumList;
pub use numbers::{Block, Ino, Page, Place, SectorNo};
pub use refusal::Refusal;
pub use reply::Reply;
pub use sink::{MemSink, Sink, SinkFault, StdSink};
pub use source::{MemSource, Source, SourceFault, StdSource};
pub use waits::WaitsFor;
