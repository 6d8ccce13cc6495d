//! How addresses divide into regions, and how large those are (own).

/// How many addresses lie between the first of one region and the first of the next: region `h`
/// covers addresses from `h * REGION_SPAN`.
pub const REGION_SPAN: u64 = 1 << 32;

/// How many regions there are at the most.
pub const MOST_REGIONS: usize = 64;

/// How many bytes a region has at the most.
pub const MOST_REGION_BYTES: u32 = 1 << 24;
