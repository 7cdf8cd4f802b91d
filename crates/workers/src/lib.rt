//! Work that is split among threads: calls by index, and a set of values whose look-up tables are shards.
//!
//! The caller's thread starts the others and waits, and makes no call itself where there are others. A [`ShardedSet`]
//! has its values in the order in which they were added, none of them twice; several workers add many values at once,
//! each to its own shards, with the outcome of adding them one after another.
#![tactic(auto)]

mod change;
mod map;
mod set;
mod shard;
mod share;

pub use change::for_each_mut;
pub use map::map_indices;
pub use set::ShardedSet;
pub use shard::shard_of;
pub use share::workers_for;
