//! What the seats of a ring know, and how it is cut and united. No value of these types is made but
//! `RingShape`: they serve the proofs.

ghost use Rattle.std.specs.Prelude.{ℕ, [], ◌++◌, take, drop};
ghost use Rattle.ring_core.specs.declared.access.Access.{Access};
ghost use Rattle.ring.specs.Shares.{IsKept, first_share};
ghost use Rattle.ring.specs.Steps.{IsTold};

use atomic_table::{Join, Play, Seat, Split, TableRule};
use ring_core::SeatPart;
use std::collections::LinkedList;
use std::marker::{Brand, PhantomData};

/// A part of a ring under the number of its seat.
pub struct Numbered {
    pub number: u64,
    pub part: SeatPart,
}

/// What a seat knows: one part or several, or none once its parts went to another seat.
pub type Share = LinkedList<Numbered>;

/// A token with which a thread steps on a ring's words.
pub type RingSeat = Seat<(), Share>;

/// How many slots and producers a ring has.
#[derive(Clone, Copy)]
pub struct RingShape {
    pub size: u64,
    pub producers: u64,
}

/// The fact that a ring's table keeps between any two steps.
pub struct Kept;

impl TableRule<(), Share, RingShape> for Kept {
    ghost holds = { IsKept };

    ghost first = { first_share };
}

/// Cuts the first part off the others.
pub struct FirstOff;

impl Split<Share> for FirstOff {
    ghost left = { λ share. drop 1 share };

    ghost right = { λ share. take 1 share };
}

/// Puts the parts of two seats together. The second seat is spent.
pub struct Together;

impl Join<Share> for Together {
    ghost both = { λ share other. share ++ other };

    ghost spent = { [] };
}

/// The step that a call makes, picked where it makes it.
pub trait Call {
    ghost size: { ℕ };

    ghost producers: { ℕ };

    ghost access: { Access };
}

impl Call for Brand {
    ghost size = { 0 };

    ghost producers = { 0 };

    ghost access = { Access.Reserve };
}

/// What a step tells the thread that makes it.
pub struct Tell<C> {
    marker: PhantomData<C>,
}

impl<C: Call> Play<(), Share> for Tell<C> {
    ghost then = { λ step me found after. IsTold C.size C.producers C.access me found after };
}
