//! Where a work-item stands in the grid (PRM, Dispatch Packet Operations).
ghost use Rattle.std.specs.Prelude.{◌≡◌, ◌<◌};
ghost use Rattle.executor.specs.Locations.{answer};
ghost use Rattle.executor.specs.inner.Rows.{number_of};

use hsail_reader::WorkItemQuery;
use kernel_check::Dimension;
use std::marker::Model;

/// A size or an id in each dimension.
#[derive(Clone, Copy, Debug, PartialEq, Eq)]
pub struct Extent {
    pub x: u32,
    pub y: u32,
    pub z: u32,
}

/// What a work-item can ask of its place in the grid.
#[derive(Clone, Copy)]
pub struct Location {
    /// The work-item's id in its work-group.
    pub item: Extent,
    /// The work-group's id in the grid.
    pub group: Extent,
    pub group_size: Extent,
    /// The size of this work-group, which is less where the grid ends.
    pub current_size: Extent,
    pub grid_size: Extent,
}

/// Where a work-item stands, in a row of numbers, so that one look finds each: the three of its own id, and so on in
/// the order of `Location`. A contract sees the location.
#[derive(Drop)]
pub struct Place {
    numbers: [u32; 15],
}

impl Model for Place {
    ghost use Rattle.executor.specs.declared.location.Location as locations;
    ghost use Rattle.executor.specs.inner.Rows as rows;

    ghost Value = { locations.Location };

    ghost view = { λ place. rows.located place.numbers };
}

/// The number of a dimension.
#[inline(always)]
fn number_of(dimension: Dimension) -> usize
    ensures value { result ≡ number_of dimension }
    ensures few { result < 3 }
{
    match dimension {
        Dimension::X => 0,
        Dimension::Y => 1,
        Dimension::Z => 2,
    }
}

impl Place {
    /// The place of a location.
    pub fn new(location: &Location) -> Place
        ensures { result ≡ location.now }
    {
        let item = &location.item;
        let group = &location.group;
        let size = &location.group_size;
        let current = &location.current_size;
        let grid = &location.grid_size;
        Place {
            numbers: [
                item.x, item.y, item.z, group.x, group.y, group.z, size.x, size.y, size.z,
                current.x, current.y, current.z, grid.x, grid.y, grid.z,
            ],
        }
    }

    /// The place of the first item of the work-group.
    pub fn first(&self) -> Place
        ensures { result ≡ record self.now { item = record { x = 0; y = 0; z = 0 } } }
    {
        let row = &self.numbers;
        Place {
            numbers: [
                0, 0, 0, row[3], row[4], row[5], row[6], row[7], row[8], row[9], row[10], row[11],
                row[12], row[13], row[14],
            ],
        }
    }

    /// The item's id.
    #[inline(always)]
    pub fn item_id(&self) -> Extent
        ensures { result ≡ self.now.item }
    {
        Extent {
            x: self.numbers[0],
            y: self.numbers[1],
            z: self.numbers[2],
        }
    }

    /// The size of its work-group.
    #[inline(always)]
    pub fn current_size(&self) -> Extent
        ensures { result ≡ self.now.current_size }
    {
        Extent {
            x: self.numbers[9],
            y: self.numbers[10],
            z: self.numbers[11],
        }
    }

    /// The place of another item of the work-group.
    #[inline(always)]
    pub fn move_to(&mut self, item: &Extent)
        ensures { self.new ≡ record self.old { item = item.now } }
    {
        self.numbers[0] = item.x;
        self.numbers[1] = item.y;
        self.numbers[2] = item.z;
    }

    /// The answer to a question, in one dimension.
    #[tactic(auto, using(crate::proofs::RowLemmas::along_at, crate::proofs::RowLemmas::along_first))]
    #[inline(always)]
    pub fn answer(&self, query: WorkItemQuery, dimension: Dimension) -> u64
        ensures { result ≡ answer self.now query dimension }
    {
        let along = number_of(dimension);
        match query {
            WorkItemQuery::WorkItemId => self.numbers[along] as u64,
            WorkItemQuery::WorkGroupId => self.numbers[3 + along] as u64,
            WorkItemQuery::WorkGroupSize => self.numbers[6 + along] as u64,
            WorkItemQuery::CurrentWorkGroupSize => self.numbers[9 + along] as u64,
            WorkItemQuery::WorkItemAbsoluteId => {
                let item = self.numbers[along] as u64;
                let group = self.numbers[3 + along] as u64;
                let group_size = self.numbers[6 + along] as u64;
                group * group_size + item
            }
            WorkItemQuery::GridSize => self.numbers[12 + along] as u64,
        }
    }
}
