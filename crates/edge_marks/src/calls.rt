// What a thread does with its seat: it looks at an edge, or kills one.
ghost use Rattle.std.specs.Prelude.{◌≡◌, ℕ, ◌/◌, ◌<◌, ◌≤◌, ◌↔◌, IsTrue, true, List, length, Contains};
ghost use Rattle.lmt_network.specs.Numbers.{IsHullNumber, AreLive, IsDead, IsBroken};
ghost use Rattle.edge_marks.specs.Answers.{look_of, kill_of};
ghost use Rattle.edge_marks.specs.Handles.{IsSameSeat, Belongs};
ghost use Rattle.edge_marks.specs.Plays.{looked_view, begun_view, marked_view, ended_view};
ghost use Rattle.edge_marks.specs.Told.{Remembers};
ghost use Rattle.mark_seats.specs.Bits.{bit_in};
ghost use Rattle.edge_marks.specs.Words.{begun_word, finished_word, most_kills};

use crate::answer::{Kill, Look};
use crate::handles::{Marks, Seat};
use crate::plays::{Finish, Mark, See, Start};
use mark_seats::{COUNTER_STEP, NOTE_STEP, is_set, mask, set_bit};

impl Seat {
    /// How many seats may still be split off.
    pub fn splits(&self) -> u32
        ensures { result ≡ self.now.known.splits }
    {
        self.spare.len() as u32
    }

    /// Whether this seat has tried to kill the edge.
    pub fn tried(&self, e: u32) -> bool
        requires { e < length self.now.known.net.edges }
        ensures { IsTrue result ↔ Contains self.now.known.tried e }
    {
        is_set(self.bits.as_slice(), e)
    }
}

impl Marks {
    // The number of the word that counts the kills that have begun.
    pub(crate) fn begun(&self) -> usize
        ensures { result ≡ begun_word self.now.net }
    {
        (self.count / 64) as usize + COUNTER_STEP
    }

    // The number of the word that counts those that have finished.
    pub(crate) fn finished(&self) -> usize
        ensures { result ≡ finished_word self.now.net }
    {
        (self.count / 64) as usize + 2 * COUNTER_STEP
    }

    /// Whether the edge is killed, by one load of its word, which is the one step of the call. No closed
    /// list holds a killed edge. A seat that has seen an edge killed, or has tried it, finds it killed;
    /// one that is settled finds exactly the edges of the live list live.
    pub fn look(&self, seat: &mut Seat, e: u32) -> Look
        requires belongs { Belongs self.now seat.old }
        requires inside { e < length self.now.net.edges }
        ensures seat { IsSameSeat seat.old seat.new × Belongs self.now seat.new }
        ensures kept { Remembers seat.old.known seat.new.known }
        ensures step { (x : ℕ) × (result ≡ look_of (bit_in x e)) × (seat.new.known ≡ looked_view e x seat.old.known) }
        ensures dead { result ≡ Look.Killed → IsDead self.now.net e }
        ensures seen { Contains seat.old.known.seen e → result ≡ Look.Killed }
        ensures tried { Contains seat.old.known.tried e → result ≡ Look.Killed }
        ensures settled { seat.old.known.settled ≡ true → (es : List ℕ) → AreLive self.now.net es
            → (result ≡ Look.Live → Contains es e) × (result ≡ Look.Killed → ¬ Contains es e) }
    {
        let shared = &self.table.shared;
        shared.exchange(&mut seat.place, seat.slot as usize * NOTE_STEP, e);
        let word = shared.load::<See>(&mut seat.place, (e / 64) as usize);
        Look::of(word, e)
    }

    /// Kills the edge, by three steps: `begun` rises by one, the edge's bit is set, and `finished` rises
    /// by one. The edge is no hull edge, this seat has not tried it, and it has seen killed another side
    /// of each of the edge's locally minimal pairs. The answer is First where the bit was 0 before.
    pub fn kill(&self, seat: &mut Seat, e: u32) -> Kill
        requires belongs { Belongs self.now seat.old }
        requires inside { e < length self.now.net.edges }
        requires inner { ¬ IsHullNumber self.now.net e }
        requires new { ¬ Contains seat.old.known.tried e }
        requires broken { IsBroken self.now.net seat.old.known.seen e }
        ensures seat { IsSameSeat seat.old seat.new × Belongs self.now seat.new }
        ensures kept { Remembers seat.old.known seat.new.known }
        ensures tried { Contains seat.new.known.tried e }
        ensures seen { Contains seat.new.known.seen e }
        ensures low { (seat.old.known.low < seat.new.known.low) × (seat.new.known.low ≤ most_kills self.now.net) }
        ensures steps { (b : ℕ) × (x : ℕ) × (f : ℕ) × (result ≡ kill_of (bit_in x e))
            × (seat.new.known ≡ ended_view (finished_word self.now.net) e f (marked_view e x (begun_view (begun_word self.now.net) e b seat.old.known))) }
    {
        let shared = &self.table.shared;
        let begun = self.begun();
        let finished = self.finished();
        shared.exchange(&mut seat.place, seat.slot as usize * NOTE_STEP, e);
        shared.fetch_add::<Start>(&mut seat.place, begun, 1);
        let word = shared.fetch_or::<Mark>(&mut seat.place, (e / 64) as usize, mask(e));
        shared.fetch_add::<Finish>(&mut seat.place, finished, 1);
        set_bit(&mut seat.bits, e);
        Kill::of(word, e)
    }
}
