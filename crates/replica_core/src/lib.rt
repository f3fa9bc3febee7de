//! Replicas and batches kept as whole sets: an edit, an export, a merge.
#![tactic(auto)]

mod copies;
mod pool;
mod replica;
mod rows;

pub use copies::copy_batch;
pub use replica::{Batch, Merged, Replica};
