// Tickets are opened, and a seat is split.
ghost use Rattle.std.specs.Prelude.{◌≡◌, ℕ, ◌<◌, ◌≤◌, IfOk};
ghost use Rattle.mark_seats.specs.Seats.{most_seats};
ghost use Rattle.ticket_marks.specs.Handles.{Belongs, IsSameSeat};
ghost use Rattle.ticket_marks.specs.Plays.{noted_view, left_view, right_view};
ghost use Rattle.ticket_marks.specs.Rule.{first_known};
ghost use Rattle.ticket_marks.specs.Told.{Remembers};

use crate::handles::{TicketMarks, TicketSeat};
use crate::plays::{Cut, TakeNote};
use crate::view::About;
use atomic_table::Table;
use lmt_network::{Network, Ranks};
use mark_seats::{COUNTER_STEP, NOTE_STEP, blank_rows};
use mwt_base::NoMemory;
use std::alloc::Global;
use std::snapshot::Snapshot;

impl TicketMarks {
    /// The marks of the network, with each edge live, and the first of at most `seats` seats, from 1 to 65.
    /// Takes all the memory that the marks and the seats will need.
    pub fn open(
        alloc: Global,
        net: &Network,
        seats: u32,
    ) -> Result<(TicketMarks, TicketSeat), NoMemory>
        requires some { 0 < seats }
        requires few { seats ≤ most_seats }
        ensures { IfOk result (λ t. (t.0.net ≡ net.now) × (t.0.seats ≡ seats) × Belongs t.0 t.1
            × (t.1.known ≡ noted_view (first_known net.now seats))) }
    {
        let count = net.edges();
        let width = (count / 64) as usize + 1;
        let len = count as usize + 2 * COUNTER_STEP;
        let ranks = Ranks::of(Vec::from_elem(alloc, 0u64, count as usize)?);
        let words = Vec::from_elem(alloc, 0u64, len)?;
        let notes = Vec::from_elem(alloc, 0u32, seats as usize * NOTE_STEP)?;
        let bits = Vec::from_elem(alloc, 0u64, width)?;
        let spare = blank_rows(alloc, (seats - 1) as usize, width)?;
        let about = About {
            net: Snapshot::of(net),
            seats,
        };
        let Ok((table, mut place)) = Table::new(alloc, words.as_slice(), notes, &about) else {
            return Err(NoMemory);
        };
        table.shared.load::<TakeNote>(&mut place, 0);
        let marks = TicketMarks {
            table,
            count,
            ranks,
            heap: alloc,
        };
        let seat = TicketSeat {
            place,
            slot: 0,
            bits,
            spare,
        };
        Ok((marks, seat))
    }

    /// A new seat, which has seen killed what the old one has, has tried no edge and may split none off.
    /// The old one may split off one less. Takes no memory.
    pub fn split(&self, seat: &mut TicketSeat) -> TicketSeat
        requires belongs { Belongs self.now seat.old }
        requires some_left { 0 < seat.old.known.splits }
        ensures seat { IsSameSeat seat.old seat.new × Belongs self.now seat.new }
        ensures kept { Remembers seat.old.known seat.new.known }
        ensures old { seat.new.known ≡ left_view seat.old.known }
        ensures new { Belongs self.now result × (result.known ≡ noted_view (right_view seat.old.known)) }
    {
        let Some(bits) = seat.spare.pop() else {
            unreachable!()
        };
        let slot = seat.slot + seat.spare.len() as u32 + 1;
        let shared = &self.table.shared;
        let mut place = shared.split_seat::<Cut>(&mut seat.place);
        shared.load::<TakeNote>(&mut place, 0);
        TicketSeat {
            place,
            slot,
            bits,
            spare: Vec::new(self.heap),
        }
    }
}
