//! Single steps on a ring's words: each is one atomic access, and its seat makes it as the pure
//! machine does.

ghost use Rattle.std.specs.Prelude.{◌≡◌, true};
ghost use Rattle.aql_packet.specs.Ring.{is_ring_size};
ghost use Rattle.ring.specs.Steps.{IsTold, IsReady, IsLoad, IsStore, IsAdd};

use crate::ring::Ring;
use crate::share::{Call, RingSeat, Tell};
use ring_core::Access;
use std::marker::Brand;

impl Ring {
    fn load_as<C: Call>(&self, seat: &mut RingSeat, access: Access, place: usize) -> u64
        requires table { seat.old.table_id ≡ self.now.table }
        requires call { (C.size ≡ self.now.size) × (C.producers ≡ self.now.producers) × (C.access ≡ access) }
        requires ready { IsReady self.now seat.old.me access place }
        requires kind { IsLoad access }
        ensures seat { seat.new.table_id ≡ seat.old.table_id }
        ensures told { IsTold C.size C.producers C.access seat.old.me result seat.new.me }
    {
        let _ = access;
        self.table.shared.load::<Tell<C>>(seat, place)
    }

    fn store_as<C: Call>(&self, seat: &mut RingSeat, access: Access, place: usize, word: u64)
        requires table { seat.old.table_id ≡ self.now.table }
        requires call { (C.size ≡ self.now.size) × (C.producers ≡ self.now.producers) × (C.access ≡ access) }
        requires ready { IsReady self.now seat.old.me access place }
        requires kind { IsStore access word }
        ensures seat { seat.new.table_id ≡ seat.old.table_id }
        ensures told { IsTold C.size C.producers C.access seat.old.me word seat.new.me }
    {
        let _ = access;
        self.table.shared.store::<Tell<C>>(seat, place, word);
    }

    fn add_one_as<C: Call>(&self, seat: &mut RingSeat, access: Access, place: usize) -> u64
        requires table { seat.old.table_id ≡ self.now.table }
        requires call { (C.size ≡ self.now.size) × (C.producers ≡ self.now.producers) × (C.access ≡ access) }
        requires ready { IsReady self.now seat.old.me access place }
        requires kind { IsAdd access }
        ensures seat { seat.new.table_id ≡ seat.old.table_id }
        ensures told { IsTold C.size C.producers C.access seat.old.me result seat.new.me }
        ensures fits { is_ring_size self.now.size ≡ true }
    {
        let _ = access;
        self.table.shared.fetch_add::<Tell<C>>(seat, place, 1)
    }

    /// Loads the word at the place of an access.
    pub(crate) fn load(&self, seat: &mut RingSeat, access: Access, place: usize) -> u64
        requires table { seat.old.table_id ≡ self.now.table }
        requires ready { IsReady self.now seat.old.me access place }
        requires kind { IsLoad access }
        ensures seat { seat.new.table_id ≡ seat.old.table_id }
        ensures told { IsTold self.now.size self.now.producers access seat.old.me result seat.new.me }
    {
        self.load_as::<Brand>(seat, access, place)
    }

    /// Stores a word at the place of an access.
    pub(crate) fn store(&self, seat: &mut RingSeat, access: Access, place: usize, word: u64)
        requires table { seat.old.table_id ≡ self.now.table }
        requires ready { IsReady self.now seat.old.me access place }
        requires kind { IsStore access word }
        ensures seat { seat.new.table_id ≡ seat.old.table_id }
        ensures told { IsTold self.now.size self.now.producers access seat.old.me word seat.new.me }
    {
        self.store_as::<Brand>(seat, access, place, word);
    }

    /// Adds 1 to the word at the place of an access, and answers the word before.
    pub(crate) fn add_one(&self, seat: &mut RingSeat, access: Access, place: usize) -> u64
        requires table { seat.old.table_id ≡ self.now.table }
        requires ready { IsReady self.now seat.old.me access place }
        requires kind { IsAdd access }
        ensures seat { seat.new.table_id ≡ seat.old.table_id }
        ensures told { IsTold self.now.size self.now.producers access seat.old.me result seat.new.me }
        ensures fits { is_ring_size self.now.size ≡ true }
    {
        self.add_one_as::<Brand>(seat, access, place)
    }
}
