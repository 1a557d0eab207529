// Claims are closed.
ghost use Rattle.std.specs.Prelude.{◌≡◌, ◌⊎◌, ℕ, ◌<◌, ◌≤◌, length, slice_index, Contains};
ghost use Rattle.std.specs.Mem.Slots.{slots_items, slots_len, IsFull};
ghost use Rattle.flip_claims.specs.Handles.{Belongs};
ghost use Rattle.flip_claims.specs.Rule.{claim_on, WordHolds};
ghost use Rattle.flip_claims.specs.Words.{most_seats, unclaimed};

use crate::handles::{ClaimSeat, Claims};
use atomic_table::Closed;
use std::alloc::Global;
use std::marker::Model;

/// The word of each triangle: the least slot for which it was claimed, or 2 to the 32nd where there is
/// none.
#[derive(Drop)]
pub struct ClaimWords {
    words: Vec<u64>,
}

impl Model for ClaimWords {
    ghost use Rattle.std.specs.Prelude.{List, ℕ};

    ghost Value = { List ℕ };

    ghost view = { λ w. w.words.items };
}

impl ClaimWords {
    /// The word of the triangle.
    pub fn get(&self, t: u32) -> u64
        requires { t < length self.now }
        ensures { result ≡ slice_index self.now t }
    {
        self.words[t as usize]
    }
}

// Copies the word of each triangle.
fn take_words(closed: &Closed<u32, Global>, words: &mut Vec<u64>, count: u32)
    requires there { IsFull closed.now.words × (count ≤ slots_len closed.now.words) }
    requires one_each { length words.old.items ≡ count }
    ensures one_each { length words.new.items ≡ count }
    ensures each { (t : ℕ) → t < count → slice_index words.new.items t ≡ slice_index (slots_items closed.now.words) t }
{
    for t in 0..count {
        words[t as usize] = closed.word(t as usize);
    }
}

impl Claims {
    /// Ends the claims: the word of each triangle. Each is that of no slot, or a slot that shortens and has the
    /// triangle, and is at most each slot for which the seat has claimed the triangle. Where the seat has all
    /// shares, since each other seat was joined with it, each slot among the words is one that it has claimed.
    /// Takes no memory.
    pub fn close(self, seat: ClaimSeat) -> ClaimWords
        requires { Belongs self seat }
        ensures one_each { length result ≡ length self.mesh.tris }
        ensures words { (t : ℕ) → t < length self.mesh.tris → WordHolds self.mesh t (slice_index result t) }
        ensures claimed { (t s : ℕ) → Contains seat.known.claimed (claim_on t s) → slice_index result t ≤ s }
        ensures whole { seat.known.shares ≡ most_seats → (t : ℕ) → t < length self.mesh.tris →
            (slice_index result t ≡ unclaimed) ⊎ Contains seat.known.claimed (claim_on t (slice_index result t)) }
    {
        let Claims {
            table,
            count,
            mut words,
        } = self;
        let ClaimSeat { place, splits: _ } = seat;
        let closed = table.close_with(place);
        take_words(&closed, &mut words, count);
        closed.free();
        ClaimWords { words }
    }
}
