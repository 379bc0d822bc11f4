//! Sources and sinks of bytes that count their faults, and the two calls that use them whole: all bytes of a source
//! up to a limit, and all bytes into a sink. Each fault has a cause that the caller can see: the count rose.
#![tactic(auto)]

mod calls;
mod cut_sink;
mod cut_source;
mod memory_sink;
mod memory_source;
mod reading;
mod sink;
mod source;
mod standard;
mod writing;

pub use cut_sink::CutSink;
pub use cut_source::CutSource;
pub use memory_sink::MemSink;
pub use memory_source::{MemSource, SureSource};
pub use reading::{ReadAllFault, read_all};
pub use sink::{Sink, WriteFailed};
pub use source::{ReadFailed, Source};
pub use standard::{StdSink, StdSource};
pub use writing::{WriteFault, write_whole};

#[cfg(test)]
mod tests;
