//! `Partitions`: a pool for each size of a list, each for a fixed number of payloads. Within these numbers no allocation is refused.
//!
//! Read `partitions.rt` first. `partition.rt` has one pool. `specs/Partitions.antt` defines what contracts see. `budget.rt` has the sums of a
//! list of payloads that share one pool.
#![tactic(auto)]

mod budget;
mod partition;
mod partitions;

pub use budget::Budget;
pub use partitions::{PartitionPayload, Partitions};
