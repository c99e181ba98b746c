// A source, a sink and a store of files in memory, which fail at the calls that they are told.
mod count;
mod sink;
mod source;
mod store;

pub use sink::MemSink;
pub use source::MemSource;
pub use store::MemFiles;
