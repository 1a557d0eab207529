// Claims are opened, and seats are split and joined.
ghost use Rattle.std.specs.Prelude.{◌≡◌, ◌<◌, ◌≤◌, IfOk};
ghost use Rattle.flip_claims.specs.Handles.{Belongs, IsSameSeat};
ghost use Rattle.flip_claims.specs.Plays.{left_view, right_view, joined_view};
ghost use Rattle.flip_claims.specs.Rule.{first_known};
ghost use Rattle.flip_claims.specs.Told.{Remembers};
ghost use Rattle.flip_claims.specs.Words.{most_seats};

use crate::handles::{ClaimSeat, Claims};
use crate::plays::{Cut, Merge};
use crate::view::About;
use atomic_table::Table;
use flip_finish::Mesh;
use mwt_base::NoMemory;
use std::alloc::Global;
use std::snapshot::Snapshot;

// The word of a triangle that no slot has claimed. It is above each slot.
const UNCLAIMED: u64 = 1 << 32;

impl Claims {
    /// The claims of a mesh, in which no triangle is claimed, and the first of at most `seats` seats, from 1
    /// to 65. Takes all the memory that the claims will need.
    pub fn open(alloc: Global, mesh: &Mesh, seats: u32) -> Result<(Claims, ClaimSeat), NoMemory>
        requires some { 0 < seats }
        requires few { seats ≤ most_seats }
        ensures { IfOk result (λ t. (t.0.mesh ≡ mesh.now) × Belongs t.0 t.1 × (t.1.known ≡ first_known seats)) }
    {
        let count = mesh.count();
        let mut words = Vec::from_elem(alloc, UNCLAIMED, count as usize + 1)?;
        let about = About {
            mesh: Snapshot::of(mesh),
            seats,
        };
        let (table, place) = Table::of_words(alloc, words.as_slice(), &about)?;
        words.pop();
        let claims = Claims {
            table,
            count,
            words,
        };
        let seat = ClaimSeat {
            place,
            splits: seats - 1,
        };
        Ok((claims, seat))
    }

    /// A new seat, which has claimed nothing and may split none off. The old one may split off one less.
    /// Takes no memory.
    pub fn split(&self, seat: &mut ClaimSeat) -> ClaimSeat
        requires belongs { Belongs self.now seat.old }
        requires some_left { 0 < seat.old.known.splits }
        ensures seat { IsSameSeat seat.old seat.new × Belongs self.now seat.new }
        ensures kept { Remembers seat.old.known seat.new.known }
        ensures old { seat.new.known ≡ left_view seat.old.known }
        ensures new { Belongs self.now result × (result.known ≡ right_view seat.old.known) }
    {
        let place = self.table.shared.split_seat::<Cut>(&mut seat.place);
        seat.splits -= 1;
        ClaimSeat { place, splits: 0 }
    }

    /// Gives up the other seat. What it has claimed, this one has claimed from now on. Takes no memory.
    pub fn join(&self, seat: &mut ClaimSeat, other: ClaimSeat)
        requires belongs { Belongs self.now seat.old }
        requires other { Belongs self.now other }
        ensures seat { IsSameSeat seat.old seat.new × Belongs self.now seat.new }
        ensures kept { Remembers seat.old.known seat.new.known }
        ensures both { seat.new.known ≡ joined_view seat.old.known other.known }
    {
        let ClaimSeat { place, splits: _ } = other;
        self.table.shared.join_seat::<Merge>(&mut seat.place, place);
    }
}
