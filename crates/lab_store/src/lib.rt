//! The outside of the program, as what its calls may answer: a store of files, a source of bytes and a sink for them. Each
//! has a form in memory, whose calls fail where they are told to.
#![tactic(auto)]

mod folder_store;
mod mem_sink;
mod mem_source;
mod mem_store;
mod std_streams;
mod store;
mod stream;

pub use folder_store::FolderStore;
pub use mem_sink::{Keep, MemSink};
pub use mem_source::MemSource;
pub use mem_store::{Fail, Fails, File, Files, MemStore};
pub use std_streams::{StdSink, StdSource};
pub use store::{Store, StoreError};
pub use stream::{Failed, Sink, Source};

#[cfg(test)]
mod tests;
