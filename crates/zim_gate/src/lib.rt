//! The outside as the compiler sees it: a folder of files to read and to write, and a sink for text.
//!
//! The two traits say what a call does to what is known of a folder or a sink, and when it may fail.
//! What is known may be nothing: a real disk tells no content, only the counts of its failures.
#![tactic(auto)]

mod calls;
mod disk_folders;
mod fault_lines;
mod folders;
mod limited;
mod memory_folders;
mod memory_sinks;
mod pens;
mod reading;
mod sink_pens;
mod sinks;
mod stops;
mod stored;
mod stream_sinks;

pub use disk_folders::DiskFolder;
pub use fault_lines::fault_line;
pub use folders::Folder;
pub use memory_folders::MemoryFolder;
pub use memory_sinks::MemorySink;
pub use pens::Pen;
pub use sink_pens::SinkPen;
pub use sinks::Sink;
pub use stops::{BeginStop, Failed, OpenStop};
pub use stream_sinks::StreamSink;

#[cfg(test)]
mod tests;
