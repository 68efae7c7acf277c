//! Numbers by the hashes of their keys, of which there may be millions and few under each hash. It knows
//! no keys, and of the numbers only that some live and others don't.
#![tactic(auto)]

mod buckets;
mod links;

pub use buckets::{Bucket, Buckets};
pub use links::Living;
