//! Where argument blocks lie in a script, so that further ones come behind them.

use aql_packet::{Address, REGION_SPAN};
use std::alloc::{AllocError, Global};

// A block begins at a multiple of this (PRM, Kernarg Segment).
const BLOCK_BOUNDARY: u64 = 16;

// The begin of a region, and how far blocks go from there.
#[derive(Clone, Copy)]
struct Taken {
    start: u64,
    length: u64,
}

/// How far the argument blocks go that a script wrote so far, in each region that has one.
#[derive(Drop)]
pub struct Places {
    taken: Vec<Taken>,
}

// The next multiple of a block's boundary.
fn at_boundary(length: u64) -> u64 {
    let blocks = length.saturating_add(BLOCK_BOUNDARY - 1) / BLOCK_BOUNDARY;
    blocks.saturating_mul(BLOCK_BOUNDARY)
}

impl Places {
    /// No block is written yet.
    pub fn new(alloc: Global) -> Places {
        Places {
            taken: Vec::new(alloc),
        }
    }

    // Which of the regions with blocks begins there.
    fn place_of(&self, start: u64) -> Option<usize> {
        for (place, taken) in self.taken.iter().enumerate() {
            if taken.start == start {
                return Some(place);
            }
        }
        None
    }

    // How far blocks go in the region that begins there.
    fn length_in(&self, start: u64) -> u64 {
        match self.place_of(start) {
            Some(place) => match self.taken.get(place) {
                Some(taken) => taken.length,
                None => 0,
            },
            None => 0,
        }
    }

    /// Where the next block lies in the region that begins there.
    pub fn next_in(&self, start: u64) -> Address {
        Address(start.saturating_add(at_boundary(self.length_in(start))))
    }

    /// A block of a length is written at an address.
    pub fn take(&mut self, place: Address, length: usize) -> Result<(), AllocError> {
        let offset = place.0 % REGION_SPAN;
        let start = place.0.saturating_sub(offset);
        let length = offset
            .saturating_add(length as u64)
            .max(self.length_in(start));
        match self.place_of(start) {
            Some(at) if at < self.taken.len() => {
                self.taken[at] = Taken { start, length };
                Ok(())
            }
            _ => Ok(self.taken.push(Taken { start, length })?),
        }
    }
}
