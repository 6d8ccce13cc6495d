//! Why an access to the memory is refused.

use std::fmt;

/// Why a range of addresses is refused (own). The memory is then as before.
#[derive(Clone, Copy, Debug, PartialEq, Eq, thiserror::Error)]
pub enum RegionFault {
    /// The range's first address lies in no region.
    NoRegion = 1,
    /// The range begins in a region, and its bytes leave that region.
    PastEnd = 2,
}

impl RegionFault {
    ghost use Rattle.std.specs.Prelude.{◌≡◌};
    ghost use Rattle.regions.specs.Faults.{number_of};

    /// The refusal's number (own).
    pub fn number(&self) -> u8
        ensures { result ≡ number_of self.now }
    {
        match self {
            RegionFault::NoRegion => 1,
            RegionFault::PastEnd => 2,
        }
    }
}

impl fmt::Display for RegionFault {
    ghost use Rattle.std.specs.Prelude.{Some};
    ghost use Rattle.regions.specs.Faults.{fault_text};

    ghost output = { λ fault. Some (fault_text fault) };

    fn fmt<W: fmt::Write>(&self, f: &mut fmt::Formatter<W>) -> fmt::Result {
        match self {
            RegionFault::NoRegion => write!(f, "no region at this address"),
            RegionFault::PastEnd => write!(f, "past the end of the region"),
        }
    }
}
