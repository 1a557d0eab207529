// What a thread does with its seat: it looks at an edge, or kills one.
ghost use Rattle.std.specs.Prelude.{◌≡◌, ℕ, ◌+◌, ◌^◌, ◌<◌, ◌≤◌, ◌↔◌, IsTrue, length, Contains};
ghost use Rattle.lmt_network.specs.Numbers.{IsHullNumber, IsDead, IsBroken};
ghost use Rattle.ticket_marks.specs.Answers.{rank_of, kill_of};
ghost use Rattle.ticket_marks.specs.Handles.{IsSameSeat, Belongs};
ghost use Rattle.ticket_marks.specs.Plays.{looked_view, drawn_view, killed_view, now_mark};
ghost use Rattle.ticket_marks.specs.Rule.{edges_seen, ranked};
ghost use Rattle.ticket_marks.specs.Told.{Remembers};
ghost use Rattle.ticket_marks.specs.Words.{issued_word, most_tickets};

use crate::answer::{Rank, TicketKill};
use crate::handles::{TicketMarks, TicketSeat};
use crate::plays::{Draw, See, Store};
use mark_seats::{COUNTER_STEP, NOTE_STEP, is_set, set_bit};

impl TicketSeat {
    /// How many seats may still be split off.
    pub fn splits(&self) -> u32
        ensures { result ≡ self.now.known.splits }
    {
        self.spare.len() as u32
    }

    /// Whether this seat has drawn a ticket for the edge.
    pub fn tried(&self, e: u32) -> bool
        requires { e < length self.now.known.net.edges }
        ensures { IsTrue result ↔ Contains self.now.known.tried e }
    {
        is_set(self.bits.as_slice(), e)
    }
}

impl TicketMarks {
    // The number of the word that counts the tickets.
    pub(crate) fn issued(&self) -> usize
        ensures value { result ≡ issued_word self.now.net }
        ensures bound { result < 2 ^ 33 }
    {
        self.count as usize + COUNTER_STEP
    }

    /// Whether the edge is killed, and with which rank, by one load of its mark, which is the one step of
    /// the call. No closed list holds a killed edge. A seat that has seen an edge killed finds the rank
    /// that it has seen.
    pub fn look(&self, seat: &mut TicketSeat, e: u32) -> Rank
        requires belongs { Belongs self.now seat.old }
        requires inside { e < length self.now.net.edges }
        ensures seat { IsSameSeat seat.old seat.new × Belongs self.now seat.new }
        ensures kept { Remembers seat.old.known seat.new.known }
        ensures step { (x : ℕ) × (result ≡ rank_of x) × (seat.new.known ≡ looked_view e x seat.old.known) }
        ensures dead { (m : ℕ) → result ≡ Rank.Killed m → IsDead self.now.net e }
        ensures seen { (m : ℕ) → Contains seat.old.known.seen (ranked e m) → result ≡ rank_of m }
    {
        let mark = self.table.shared.load::<See>(&mut seat.place, e as usize);
        Rank::of(mark)
    }

    /// Kills the edge, by two steps: a ticket is drawn from `issued`, which rises by one, and then the rank
    /// one above the ticket is stored where the mark is 0. The edge is no hull edge, this seat has not tried
    /// it, and it has seen killed another side of each of the edge's locally minimal pairs. First where the
    /// mark was 0, and else Already, with the rank that stands.
    pub fn kill(&self, seat: &mut TicketSeat, e: u32) -> TicketKill
        requires belongs { Belongs self.now seat.old }
        requires inside { e < length self.now.net.edges }
        requires inner { ¬ IsHullNumber self.now.net e }
        requires new { ¬ Contains seat.old.known.tried e }
        requires broken { IsBroken self.now.net (edges_seen seat.old.known.seen) e }
        ensures seat { IsSameSeat seat.old seat.new × Belongs self.now seat.new }
        ensures kept { Remembers seat.old.known seat.new.known }
        ensures tried { Contains seat.new.known.tried e }
        ensures steps { (t : ℕ) × (x : ℕ) × (result ≡ kill_of t x) × (t + 1 ≤ most_tickets self.now.net)
            × Contains seat.new.known.seen (ranked e (now_mark t x))
            × (seat.new.known ≡ killed_view e t x (drawn_view (issued_word self.now.net) e t seat.old.known)) }
    {
        let shared = &self.table.shared;
        let issued = self.issued();
        shared.exchange(&mut seat.place, seat.slot as usize * NOTE_STEP, e);
        let ticket = shared.fetch_add::<Draw>(&mut seat.place, issued, 1);
        let mark = shared.compare_exchange::<Store>(&mut seat.place, e as usize, 0, ticket + 1);
        set_bit(&mut seat.bits, e);
        TicketKill::of(ticket, mark)
    }
}
