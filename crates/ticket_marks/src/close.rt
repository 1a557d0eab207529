// Tickets are closed.
ghost use Rattle.std.specs.Prelude.{◌≡◌, ℕ, ◌<◌, ◌≤◌, length, replicate, slice_index, Contains};
ghost use Rattle.std.specs.Mem.Slots.{slots_items, slots_len, IsFull};
ghost use Rattle.lmt_network.specs.Derivation.{IsDerivation};
ghost use Rattle.ticket_marks.specs.Handles.{Belongs};
ghost use Rattle.ticket_marks.specs.Rule.{ranked};
ghost use Rattle.ticket_marks.specs.Words.{most_tickets};

use crate::handles::{TicketMarks, TicketSeat};
use atomic_table::Closed;
use lmt_network::Ranks;
use mark_seats::put_away;
use std::alloc::Global;

// Makes the rank of each edge its mark.
fn take_marks(closed: &Closed<u32, Global>, ranks: &mut Ranks, count: u32)
    requires words { IsFull closed.now.words × (count ≤ slots_len closed.now.words) }
    requires one_each { length ranks.old ≡ count }
    ensures one_each { length ranks.new ≡ count }
    ensures each { (e : ℕ) → e < count → slice_index ranks.new e ≡ slice_index (slots_items closed.now.words) e }
{
    for e in 0..count {
        ranks.set(e, closed.word(e as usize));
    }
}

impl TicketMarks {
    /// Ends the marks: the rank of each edge, 0 where no seat has killed it. They are a derivation, and an
    /// edge that the seat has seen killed has the rank that it has seen. Takes no memory.
    pub fn close(self, seat: TicketSeat) -> Ranks
        requires { Belongs self seat }
        ensures one_each { length result ≡ length self.net.edges }
        ensures derivation { IsDerivation self.net result }
        ensures most { (e : ℕ) → slice_index result e ≤ most_tickets self.net }
        ensures seen { (e m : ℕ) → Contains seat.known.seen (ranked e m) → slice_index result e ≡ m }
    {
        let TicketMarks {
            table,
            count,
            mut ranks,
            heap: _,
        } = self;
        let TicketSeat {
            place,
            slot: _,
            bits,
            spare,
        } = seat;
        drop(bits);
        drop(spare);
        let closed = table.close_with(place);
        take_marks(&closed, &mut ranks, count);
        put_away(closed);
        ranks
    }
}
