//! What a program reads from and writes to: libraries of named texts, sources and sinks of bytes, each as a trait
//! with a written meaning, in memory, and over real files and streams.
#![tactic(auto)]

mod counter;
mod mem_library;
mod mem_sink;
mod mem_source;
mod outside;
mod streams;
mod whole;

pub use counter::Counter;
pub use mem_library::MemLibrary;
pub use mem_sink::MemSink;
pub use mem_source::MemSource;
pub use outside::{Failed, FetchFault, Library, Sink, Source};
pub use streams::{FileLibrary, StreamSink, StreamSource};
pub use whole::Whole;
