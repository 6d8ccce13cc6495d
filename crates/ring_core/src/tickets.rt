//! The tickets of one producer.

ghost use Rattle.std.specs.Prelude.{◌≡◌, ◌<◌, ◌++◌, ◌∷◌, [], is_some, slice_index, true, OnOk, OnErr};
ghost use Rattle.ring_core.specs.Words.{is_body};
ghost use Rattle.ring_core.specs.declared.ticket.TicketChange.TheVariants.{Saw, Wrote};
ghost use Rattle.ring_core.specs.inner.Together.{IsChanged, publication_changes};
ghost use Rattle.ring_core.specs.Tickets.{blank, changed, seeing, writing, held, open_ticket, open_ones, without, HasEightWords, IsPlaceOf, IsAscending, IsAbove};

use crate::log::Log;
use crate::ticket::{HeldTicket, Ticket, TicketChange, law_eight_words, with_word};
use aql_packet::PacketId;
use std::alloc::{AllocError, Global};
use std::marker::Model;

/// The tickets of one producer, in the order in which it reserved them. A contract sees them all; memory
/// holds the open ones alone, so that none is looked for among the published.
#[derive(Drop, Debug)]
pub struct Tickets {
    open_tickets: Vec<HeldTicket>,
    changes: Log<TicketChange>,
}

impl Model for Tickets {
    ghost use Rattle.std.specs.Prelude.{◌≡◌, List};
    ghost use Rattle.ring_core.specs.declared.ticket.HeldTicket.{HeldTicket};

    ghost Value = { List HeldTicket };

    ghost use Rattle.ring_core.specs.Tickets.{IsAscending, after_changes, open_ones};

    ghost view = { λ t. after_changes t.changes };

    ghost invariant = { λ t. IsAscending (after_changes t.changes) × (t.open_tickets.items ≡ open_ones (after_changes t.changes)) };
}

impl Tickets {
    /// No ticket. It takes no memory.
    pub(crate) fn new(alloc: Global) -> Tickets
        ensures { result ≡ [] }
    {
        Tickets {
            open_tickets: Vec::new(alloc),
            changes: Log::new(),
        }
    }

    /// The open tickets, in the order in which they were reserved.
    pub fn open_tickets(&self) -> &[HeldTicket]
        ensures { result.now ≡ open_ones self.now }
    {
        self.open_tickets.as_slice()
    }

    /// The ticket under an id, if it is one of these and open.
    pub fn get_open(&self, id: PacketId) -> Option<Ticket>
        ensures { result ≡ open_ticket id.0 self.now }
    {
        ticket_under(self.open_tickets.as_slice(), id)
    }

    /// Notes the read index that the open ticket under an id saw.
    pub(crate) fn note_read_index(&mut self, id: PacketId, read_index: u64)
        requires { is_some (open_ticket id.0 self.old) ≡ true }
        ensures { self.new ≡ changed id.0 (seeing read_index) self.old }
    {
        see(&mut self.open_tickets, id, read_index);
        self.changes.push(&TicketChange::Saw {
            ticket: id,
            read_index,
        });
    }

    /// Notes a body word that the open ticket under an id wrote.
    pub(crate) fn note_word(&mut self, id: PacketId, place: u64, word: u64)
        requires ticket { is_some (open_ticket id.0 self.old) ≡ true }
        requires body { is_body place ≡ true }
        ensures { self.new ≡ changed id.0 (writing place word) self.old }
    {
        write(&mut self.open_tickets, id, place, word);
        self.changes.push(&TicketChange::Wrote {
            ticket: id,
            place,
            word,
        });
    }

    /// Notes that the open ticket under an id wrote its header word: it is published.
    pub(crate) fn publish(&mut self, id: PacketId, word: u64)
        requires { is_some (open_ticket id.0 self.old) ≡ true }
        ensures { self.new ≡ changed id.0 (writing 0 word) self.old }
    {
        close(&mut self.open_tickets, id);
        self.changes.push(&TicketChange::Wrote {
            ticket: id,
            place: 0,
            word,
        });
    }

    /// Notes the read index that the ticket under an id saw, if it is one of these and open: whether it is.
    pub(crate) fn look(&mut self, id: PacketId, read_index: u64) -> bool
        ensures { IsChanged id (Saw id read_index ∷ []) self.old result self.new }
    {
        if !see(&mut self.open_tickets, id, read_index) {
            return false;
        }
        self.changes.push(&TicketChange::Saw {
            ticket: id,
            read_index,
        });
        true
    }

    /// Notes that the ticket under an id, if it is one of these and open, saw the read index, and that its words
    /// were written, the header last: whether it is.
    pub(crate) fn publish_whole(&mut self, id: PacketId, read_index: u64, words: &[u64; 8]) -> bool
        ensures { IsChanged id (publication_changes id read_index words.now) self.old result self.new }
    {
        if !close(&mut self.open_tickets, id) {
            return false;
        }
        self.changes
            .push_all(&publication_changes(id, read_index, words));
        true
    }

    /// Puts a new ticket, with an id above theirs, behind the others.
    pub(crate) fn push(&mut self, id: PacketId) -> Result<(), AllocError>
        requires { IsAbove id.0 self.old }
        ensures ok { OnOk result (self.new ≡ self.old ++ record { id = id; ticket = blank } ∷ []) }
        ensures err { OnErr result (self.new ≡ self.old) }
    {
        let reserved = HeldTicket {
            id,
            ticket: Ticket::blank(),
        };
        self.open_tickets.push(reserved)?;
        self.changes.push(&TicketChange::Opened(id));
        Ok(())
    }
}

// The ticket under an id, if it is one of these.
fn ticket_under(reserved: &[HeldTicket], id: PacketId) -> Option<Ticket>
    requires { IsAscending reserved.now }
    ensures { result ≡ held id.0 reserved.now }
{
    let index = place_of(reserved, id)?;
    Some(reserved[index].ticket)
}

// What a publication changes of the ticket under an id.
fn publication_changes(id: PacketId, read_index: u64, words: &[u64; 8]) -> [TicketChange; 9]
    ensures { result ≡ publication_changes id read_index words.now }
{
    [
        TicketChange::Saw {
            ticket: id,
            read_index,
        },
        wrote(id, 1, words),
        wrote(id, 2, words),
        wrote(id, 3, words),
        wrote(id, 4, words),
        wrote(id, 5, words),
        wrote(id, 6, words),
        wrote(id, 7, words),
        wrote(id, 0, words),
    ]
}

// That a word of the packet under an id was written.
fn wrote(id: PacketId, place: usize, words: &[u64; 8]) -> TicketChange
    requires { place < 8 }
    ensures { result ≡ Wrote id place (slice_index words.now place) }
{
    TicketChange::Wrote {
        ticket: id,
        place: place as u64,
        word: words[place],
    }
}

// The ticket under an id saw the read index, if it is one of these: whether it is.
fn see(reserved: &mut Vec<HeldTicket>, id: PacketId, read_index: u64) -> bool
    requires { IsAscending reserved.old.items }
    ensures found { result ≡ is_some (held id.0 reserved.old.items) }
    ensures saw { reserved.new.items ≡ changed id.0 (seeing read_index) reserved.old.items }
{
    match place_of(reserved.as_slice(), id) {
        Some(index) => {
            reserved[index].ticket.saw = Some(read_index);
            true
        }
        None => false,
    }
}

// A word of the ticket under an id was written.
fn write(reserved: &mut Vec<HeldTicket>, id: PacketId, place: u64, word: u64)
    requires { IsAscending reserved.old.items }
    ensures { reserved.new.items ≡ changed id.0 (writing place word) reserved.old.items }
{
    if let Some(index) = place_of(reserved.as_slice(), id) {
        let entry = &mut reserved[index];
        entry.ticket.words = with_word(entry.ticket.words, place, word);
    }
}

// Takes the ticket under an id off, if it is one of these: whether it is.
fn close(reserved: &mut Vec<HeldTicket>, id: PacketId) -> bool
    requires { IsAscending reserved.old.items }
    ensures found { result ≡ is_some (held id.0 reserved.old.items) }
    ensures rest { reserved.new.items ≡ without id.0 reserved.old.items }
    ensures eight { HasEightWords id.0 reserved.old.items }
{
    match place_of(reserved.as_slice(), id) {
        Some(index) => {
            let entry = reserved.remove(index);
            law_eight_words(&entry.ticket.words);
            true
        }
        None => false,
    }
}

// The index of the ticket under an id, by binary search.
fn place_of(reserved: &[HeldTicket], id: PacketId) -> Option<usize>
    requires { IsAscending reserved.now }
    ensures { IsPlaceOf id.0 reserved.now result }
{
    let mut low = 0;
    let mut high = reserved.len();
    while low < high {
        let middle = low + (high - low) / 2;
        if reserved[middle].id.0 < id.0 {
            low = middle + 1;
        } else {
            high = middle;
        }
    }
    if low < reserved.len() && reserved[low].id.0 == id.0 {
        Some(low)
    } else {
        None
    }
}
