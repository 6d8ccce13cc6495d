//! What a client asks of a broker.

ghost use Rattle.std.specs.Prelude.{◌≡◌};
ghost use Rattle.session.specs.Requests.{only, hello_of, queue_of, close_of, region_of, read_of, write_of, signal_of, load_of, list_of, errors_of, sync_of, number_of, request_of};

use crate::head::Head;

/// A session's first record: the version that the client speaks, and whether a token of 32 bytes follows.
#[derive(Clone, Copy, Debug, PartialEq, Eq)]
pub struct Greeting {
    pub version: u64,
    pub has_token: bool,
}

/// A queue to be opened: on which agent, with how many slots.
#[derive(Clone, Copy, Debug, PartialEq, Eq)]
pub struct NewQueue {
    pub agent: u64,
    pub size: u64,
}

/// A mirror to be made: of which region, and whether the broker looks for what is stored there (else the client names it).
#[derive(Clone, Copy, Debug, PartialEq, Eq)]
pub struct Mirror {
    pub region: u64,
    pub is_scanned: bool,
}

/// Bytes of memory: the address of the first, and how many.
#[derive(Clone, Copy, Debug, PartialEq, Eq)]
pub struct Range {
    pub address: u64,
    pub length: u64,
}

/// A change of a signal: which, the change by its number, and two operands, signed numbers in 64 bits.
#[derive(Clone, Copy, Debug, PartialEq, Eq)]
pub struct Change {
    pub signal: u64,
    pub operation: u64,
    pub value: u64,
    pub expected: u64,
}

/// Bytes of a mirror that the client stored: of which region, from where on, and how many.
#[derive(Clone, Copy, Debug, PartialEq, Eq)]
pub struct Part {
    pub region: u64,
    pub offset: u64,
    pub length: u64,
}

/// What a client asks (own). Numbers of objects are the client's own words: nothing is known of them yet.
#[derive(Clone, Copy, Debug, PartialEq, Eq)]
pub enum Request {
    /// Who it is.
    Hello(Greeting),
    /// A queue.
    Queue(NewQueue),
    /// The end of this queue.
    Close(u64),
    /// A mirror of a region.
    Region(Mirror),
    /// Bytes of memory.
    Read(Range),
    /// That as many bytes as follow are written, from this address on.
    Write(Range),
    /// A change of a signal.
    Signal(Change),
    /// The value of this signal.
    Load(u64),
    /// Its rights in force.
    List,
    /// The errors of this queue.
    Errors(u64),
    /// That what it stored in a mirror goes in.
    Sync(Part),
    /// The number of an object of this kind whose name follows.
    Number(u64),
}

/// What the head of a client's record asks, if it is one that a client may send: of a number that is known, with as many bytes
/// behind it as that asks for, and zeros in the numbers that it doesn't use.
pub fn request_of(head: &Head) -> Option<Request>
    ensures { result ≡ request_of head.now }
{
    match head.asks {
        1 => hello(head),
        2 => queue(head),
        3 => close(head),
        4 => region(head),
        5 => read(head),
        6 => write(head),
        7 => signal(head),
        8 => load(head),
        9 => list(head),
        10 => errors(head),
        11 => sync(head),
        12 => number(head),
        _ => None,
    }
}

// What is asked, where the head is as that wants it.
fn only(is_well: bool, request: Request) -> Option<Request>
    ensures { result ≡ only is_well request }
{
    if is_well { Some(request) } else { None }
}

fn hello(head: &Head) -> Option<Request>
    ensures { result ≡ hello_of head.now }
{
    let asked = Greeting {
        version: head.first,
        has_token: head.following == 32,
    };
    only(
        head.uses_one() && (head.following == 0 || head.following == 32),
        Request::Hello(asked),
    )
}

fn queue(head: &Head) -> Option<Request>
    ensures { result ≡ queue_of head.now }
{
    let asked = NewQueue {
        agent: head.first,
        size: head.second,
    };
    only(
        head.uses_two() && head.following == 0,
        Request::Queue(asked),
    )
}

fn close(head: &Head) -> Option<Request>
    ensures { result ≡ close_of head.now }
{
    only(
        head.uses_one() && head.following == 0,
        Request::Close(head.first),
    )
}

fn region(head: &Head) -> Option<Request>
    ensures { result ≡ region_of head.now }
{
    let asked = Mirror {
        region: head.first,
        is_scanned: head.second == 1,
    };
    only(
        head.uses_two() && head.following == 0 && head.second < 2,
        Request::Region(asked),
    )
}

fn read(head: &Head) -> Option<Request>
    ensures { result ≡ read_of head.now }
{
    let asked = Range {
        address: head.first,
        length: head.second,
    };
    only(head.uses_two() && head.following == 0, Request::Read(asked))
}

fn write(head: &Head) -> Option<Request>
    ensures { result ≡ write_of head.now }
{
    let asked = Range {
        address: head.first,
        length: u64::from(head.following),
    };
    only(head.uses_one(), Request::Write(asked))
}

fn signal(head: &Head) -> Option<Request>
    ensures { result ≡ signal_of head.now }
{
    let asked = Change {
        signal: head.first,
        operation: head.second,
        value: head.third,
        expected: head.fourth,
    };
    only(
        head.uses_four() && head.following == 0,
        Request::Signal(asked),
    )
}

fn load(head: &Head) -> Option<Request>
    ensures { result ≡ load_of head.now }
{
    only(
        head.uses_one() && head.following == 0,
        Request::Load(head.first),
    )
}

fn list(head: &Head) -> Option<Request>
    ensures { result ≡ list_of head.now }
{
    only(head.uses_none() && head.following == 0, Request::List)
}

fn errors(head: &Head) -> Option<Request>
    ensures { result ≡ errors_of head.now }
{
    only(
        head.uses_one() && head.following == 0,
        Request::Errors(head.first),
    )
}

fn sync(head: &Head) -> Option<Request>
    ensures { result ≡ sync_of head.now }
{
    let asked = Part {
        region: head.first,
        offset: head.second,
        length: head.third,
    };
    only(
        head.uses_three() && head.following == 0,
        Request::Sync(asked),
    )
}

fn number(head: &Head) -> Option<Request>
    ensures { result ≡ number_of head.now }
{
    only(head.uses_one(), Request::Number(head.first))
}
