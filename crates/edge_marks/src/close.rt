// Marks are closed.
ghost use Rattle.std.specs.Prelude.{◌≡◌, ℕ, ◌+◌, ◌/◌, ◌<◌, ◌^◌, true, false, eqb, List, length, replicate, slice_index_or, All, Contains};
ghost use Rattle.std.specs.Mem.Slots.{slots_items, slots_len, IsFull};
ghost use Rattle.lmt_network.specs.Flags.{live_numbers};
ghost use Rattle.lmt_network.specs.Numbers.{AreClosed, AreLive};
ghost use Rattle.atomic_table.specs.Table.{State};
ghost use Rattle.edge_marks.specs.declared.view.Known.{Known};
ghost use Rattle.edge_marks.specs.Handles.{Belongs, IsStateWith, AreFlagsOf};
ghost use Rattle.edge_marks.specs.Words.{mark_of};

use crate::handles::{Marks, Seat};
use atomic_table::Closed;
use lmt_network::Flags;
use mark_seats::{edge_bit, put_away};
use std::alloc::Global;

// Drops the flags of the edges whose bit is set.
fn drop_killed(closed: &Closed<u32, Global>, flags: &mut Flags, count: u32)
    requires words { IsFull closed.now.words × (count / 64 < slots_len closed.now.words) }
    requires all { flags.old ≡ replicate count true }
    ensures count { length flags.new ≡ count }
    ensures each { (e : ℕ) → e < count → slice_index_or flags.new e false ≡ eqb (mark_of (slots_items closed.now.words) e) 0 }
{
    for e in 0..count {
        if edge_bit(closed.word((e / 64) as usize), e) != 0 {
            flags.drop_edge(e);
        }
    }
}

impl Marks {
    /// Ends the marks: the flags of the edges that no seat has killed. Each member of every closed list is
    /// live in them, and no edge that the seat has seen killed; where the seat is settled, the live edges are
    /// the live list. An edge that is not live in them was tried by some seat. Takes no memory.
    pub fn close(self, seat: Seat) -> Flags
        requires { Belongs self seat }
        ensures count { length result ≡ length self.net.edges }
        ensures last { (s : State ℕ Known) × IsStateWith self seat s × AreFlagsOf self.net s result }
        ensures closed { (es : List ℕ) → AreClosed self.net es → All (Contains (live_numbers result)) es }
        ensures seen { (e : ℕ) → Contains seat.known.seen e → slice_index_or result e false ≡ false }
        ensures settled { seat.known.settled ≡ true → AreLive self.net (live_numbers result) }
    {
        let Marks {
            table,
            count,
            mut flags,
            heap: _,
        } = self;
        let Seat {
            place,
            slot: _,
            bits,
            spare,
            supports,
        } = seat;
        drop(bits);
        drop(spare);
        drop(supports);
        let closed = table.close_with(place);
        drop_killed(&closed, &mut flags, count);
        put_away(closed);
        flags
    }
}
