// What is known of a seat in proofs: its view, which only its own steps change. No value of these types
// is made. In clauses an array is a list of any length.
use atomic_table::TableRule;
use lmt_network::Network;
use std::snapshot::Snapshot;

/// A step of a seat.
pub enum Made {
    /// Of a word, with the value found.
    Load(u64, u64),
    /// The same, where the word then rose by one.
    Add(u64, u64),
    /// The same, where the word then got a rank if it was 0.
    Exchange(u64, u64),
    /// A seat was split off.
    Fork,
}

/// An edge that was seen killed, with its rank.
pub struct Ranked {
    pub edge: u64,
    pub rank: u64,
}

/// Where a seat is in a kill.
pub enum Drawn {
    NoTicket,
    /// For this edge it has drawn this ticket, and has not stored its rank yet.
    Ticket(u64, u64),
}

/// What a seat knows.
pub struct Known {
    pub net: Network,
    /// The edges that it has seen killed.
    pub seen: [Ranked; 0],
    /// The edges for which it has drawn a ticket, without repeats.
    pub tried: [u64; 0],
    pub drawn: Drawn,
    /// How many seats it may still split off.
    pub splits: u64,
    /// Its steps in their order, but the load that took its note.
    pub steps: [Made; 0],
    /// The number of its note. Those after it are for the seats that it may split off.
    pub slot: u64,
    /// Whether it has taken its note.
    pub noted: bool,
}

/// What is fixed when the tickets are opened.
#[derive(Drop)]
pub struct About {
    pub net: Snapshot<Network>,
    pub seats: u32,
}

/// The rule of the tickets: it holds between any two steps of any seats.
pub struct TicketRule;

impl TableRule<u32, Known, About> for TicketRule {
    ghost use Rattle.ticket_marks.specs.Rule.{TicketsHold, first_view};

    ghost holds = { TicketsHold };

    ghost first = { first_view };
}
