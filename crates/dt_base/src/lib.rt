//! What every crate of Celdaurki stands on: texts and lists as plain values, want of memory, and the
//! traits of what is handed in: a source and a sink of bytes, a shelf of named files, and an object that
//! is asked one ask at a time. In `names` names of contents and identifiers of models, read and compared.
#![tactic(auto)]

mod file_shelf;
mod link;
mod list;
mod mem_link;
mod mem_shelf;
mod mem_sink;
mod mem_source;
mod memory;
pub mod names;
mod object;
mod reads;
mod shelf;
mod short;
mod sink;
mod source;
mod std_io;
mod text;
mod writes;

pub use file_shelf::FileShelf;
pub use link::Link;
pub use list::List;
pub use mem_link::MemLink;
pub use mem_shelf::{File, MemShelf};
pub use mem_sink::MemSink;
pub use mem_source::MemSource;
pub use memory::OutOfMemory;
pub use object::Object;
pub use reads::{ReadEnd, read_all};
pub use shelf::{Fetched, QuietShelf, Shelf, ShelfEnd};
pub use sink::{QuietSink, Sink, WriteFault};
pub use source::{Failed, QuietSource, Source};
pub use std_io::{StdSink, StdSource};
pub use text::Text;
pub use writes::write_all;
