//! The byte memory of the broker: regions of bytes, each with its own addresses.
#![tactic(auto)]

mod fault;
mod region;
mod regions;

pub use fault::RegionFault;
pub use regions::{Regions, region_of};
