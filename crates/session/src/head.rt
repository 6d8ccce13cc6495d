//! What a record begins with.

ghost use Rattle.std.specs.Prelude.{◌≡◌, ◌+◌, ◌≤◌, length, drop};
ghost use Rattle.byteorder.specs.Endian.{little_number};
ghost use Rattle.session.specs.Records.{number_at, head_of, head_at, is_record, uses_none, uses_one, uses_two, uses_three, uses_four};

use byteorder::{ByteOrder, LittleEndian};

// The bytes of a head, and the most bytes behind it.
const HEAD: usize = 64;

const FOLLOWING: usize = 65_536;

/// What a record begins with (own): what it asks, a tag that its answer bears, how many bytes follow, and six numbers.
#[derive(Clone, Copy, Debug, PartialEq, Eq)]
pub struct Head {
    /// The number of what is asked.
    pub asks: u32,
    /// What the answer is told by.
    pub tag: u32,
    /// How many bytes follow, at most 65,536.
    pub following: u32,
    pub first: u64,
    pub second: u64,
    pub third: u64,
    pub fourth: u64,
    pub fifth: u64,
    pub sixth: u64,
}

impl Head {
    /// The head of a record. What is shorter than a head, longer than a record may be, of another length than it says, or
    /// has a status, is none.
    pub fn read(record: &[u8]) -> Option<Head>
        ensures { result ≡ head_of record.now }
    {
        if record.len() < HEAD || record.len() - HEAD > FOLLOWING {
            return None;
        }
        if record.len() - HEAD != u32_at(record, 12) as usize || u32_at(record, 8) != 0 {
            return None;
        }
        Some(read_whole(record))
    }

    // No number is used, or only so many: those behind are zero.
    pub(crate) fn uses_none(&self) -> bool
        ensures { result ≡ uses_none self.now }
    {
        self.first == 0 && self.uses_one()
    }

    pub(crate) fn uses_one(&self) -> bool
        ensures { result ≡ uses_one self.now }
    {
        self.second == 0 && self.uses_two()
    }

    pub(crate) fn uses_two(&self) -> bool
        ensures { result ≡ uses_two self.now }
    {
        self.third == 0 && self.uses_three()
    }

    pub(crate) fn uses_three(&self) -> bool
        ensures { result ≡ uses_three self.now }
    {
        self.fourth == 0 && self.uses_four()
    }

    pub(crate) fn uses_four(&self) -> bool
        ensures { result ≡ uses_four self.now }
    {
        self.fifth == 0 && self.sixth == 0
    }
}

// The head in the first 64 bytes.
fn read_whole(record: &[u8]) -> Head
    requires { 64 ≤ length record.now }
    ensures { result ≡ head_at record.now }
{
    Head {
        asks: u32_at(record, 0),
        tag: u32_at(record, 4),
        following: u32_at(record, 12),
        first: u64_at(record, 16),
        second: u64_at(record, 24),
        third: u64_at(record, 32),
        fourth: u64_at(record, 40),
        fifth: u64_at(record, 48),
        sixth: u64_at(record, 56),
    }
}

// The number in four bytes from a place on.
fn u32_at(bytes: &[u8], place: usize) -> u32
    requires { place + 4 ≤ length bytes.now }
    ensures { result ≡ number_at bytes.now place 4 }
{
    LittleEndian::read_u32(bytes.split_at(place).1)
}

// The number in eight bytes from a place on.
fn u64_at(bytes: &[u8], place: usize) -> u64
    requires { place + 8 ≤ length bytes.now }
    ensures { result ≡ number_at bytes.now place 8 }
{
    LittleEndian::read_u64(bytes.split_at(place).1)
}
