//! The ground that every other crate stands on: texts that contracts see as lists, shared values, a counter of
//! steps, places and refusals.
#![tactic(auto)]

mod bytes;
mod call_count;
mod code;
mod mem_shelf;
mod mem_sink;
mod name;
mod named_file;
mod outside;
mod place;
mod reading;
mod refusal;
mod rule;
mod shared;
mod steps;
mod stored;
mod sure;
mod writing;

pub use bytes::Bytes;
pub use code::{Code, Giver};
pub use mem_shelf::MemShelf;
pub use mem_sink::MemSink;
pub use name::Name;
pub use named_file::NamedFile;
pub use outside::{Found, Shelf, ShelfFault, Sink, SinkFault, Taker};
pub use place::{Place, place_of};
pub use reading::{MAX_FILE, ReadStop, read_file, read_pieces};
pub use refusal::{Halt, No, Refusal, RuleStop, Shown};
pub use rule::Rule;
pub use shared::Shared;
pub use steps::Steps;
pub use sure::{SureShelf, SureSink};
pub use writing::put_all;
