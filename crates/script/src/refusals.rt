//! The table of refusals: one row each, in the order of their numbers.

ghost use Rattle.std.specs.Prelude.{◌≡◌, map};
ghost use Rattle.script.specs.Refusals.{refusal_view, refusal_rows, number_of_why, name_among, name_of_why};

use world::Refusal;

/// A refusal: its number and its name, as replies spell them, and what it means.
#[derive(Clone, Copy)]
pub struct RefusalRow {
    pub number: u8,
    pub name: &'static str,
    pub meaning: &'static str,
}

macro_rules! refusals {
    ($($number:literal $name:literal $meaning:literal;)*) => {
        [$(RefusalRow { number: $number, name: $name, meaning: $meaning }),*]
    };
}

// The refusals: those of the core, and 14 and 15 of the rings around it.
const REFUSALS: [RefusalRow; 17] = refusals! {
    0 "OutOfMemory" "memory was wanted and not to be had; all is as before";
    1 "UnknownClient" "the policy declares no client of that name";
    2 "UnknownQueue" "no open queue has that number";
    3 "Denied" "the right that is named isn't in force for the client on that object, or on the whole range";
    4 "Busy" "a packet in flight holds a right that is to be revoked, or that a reload is to take: it is the one that is named; finish it, stop its queue if it is a barrier packet, or close its queue";
    5 "NotAllowed" "the policy doesn't allow one of these rights: the allow rows that cover the client and the object don't have it together, a deny row takes it, or objects of that kind have no such right";
    6 "OutOfStep" "packets of a queue are taken in the order of their ids: the next one is named";
    7 "QueueDown" "the queue had an error or was stopped, and launches nothing more";
    8 "NotInFlight" "no packet of that id is in flight, or it is of another kind than this call takes";
    9 "NotFinished" "work-groups are left to run, or the barrier packet isn't ready";
    10 "AuditFull" "the audit has no place for the entry, counting one that is kept for each packet in flight";
    11 "BadSize" "a queue has 2 to 4096 slots, a power of two, and 1 to 16 producers; a client reads and writes 1 to 65536 bytes";
    12 "TooMany" "64 queues are open";
    13 "UnknownObject" "the policy declares no object of that kind and name";
    14 "NotAStep" "the seat may not make this step of its ring now: a foreign or published ticket, no room seen, no packet read whole, or a packet not taken yet";
    15 "Spent" "the producer has reserved 1099511627776 ids, the most; each other producer of the ring has its own";
    16 "OtherObjects" "the policy that is handed in declares other clients or objects than the first one, or one of them with another key";
};

/// The refusals, in the order of their numbers.
pub fn refusal_rows() -> &'static [RefusalRow]
    ensures { map refusal_view result.now ≡ refusal_rows }
{
    &REFUSALS
}

// The name in the first of some rows that has a number.
fn name_among(rows: &'static [RefusalRow], number: u8) -> &'static str
    ensures { result.now ≡ name_among (map refusal_view rows.now) number }
{
    let mut rest = rows;
    while let [row, others @ ..] = rest {
        if row.number == number {
            return row.name;
        }
        rest = others;
    }
    ""
}

/// The number of a refusal.
pub fn refusal_number(why: &Refusal) -> u8
    ensures { result ≡ number_of_why why.now }
{
    match why {
        Refusal::Core(refusal) => refusal.number(),
        Refusal::NotAStep => 14,
        Refusal::Spent => 15,
    }
}

/// The name of a refusal: that of the row of its number.
#[tactic(auto, unfolding(crate::specs::Refusals::name_of_why))]
pub fn refusal_name(why: &Refusal) -> &'static str
    ensures { result.now ≡ name_of_why why.now }
{
    name_among(refusal_rows(), refusal_number(why))
}
