// What a thread does with its seat: it claims the triangles of a slot.
ghost use Rattle.std.specs.Prelude.{◌≡◌, ◌<◌, ℕ, Contains};
ghost use Rattle.flip_finish.specs.Flipping.{Shortens};
ghost use Rattle.flip_finish.specs.Winners.{HasPair, HasTriangle};
ghost use Rattle.flip_claims.specs.Answers.{claim_of};
ghost use Rattle.flip_claims.specs.Handles.{IsSameSeat, Belongs};
ghost use Rattle.flip_claims.specs.Plays.{claimed_view};
ghost use Rattle.flip_claims.specs.Rule.{claim_on};
ghost use Rattle.flip_claims.specs.Told.{Remembers};

use crate::answer::Claim;
use crate::handles::{ClaimSeat, Claims};
use crate::plays::Lower;
use exact_predicates::Points;
use flip_finish::Mesh;

impl ClaimSeat {
    /// How many seats may still be split off.
    pub fn splits(&self) -> u32
        ensures { result ≡ self.now.known.splits }
    {
        self.splits
    }
}

impl Claims {
    /// Claims both triangles of a slot that shortens, each by one step: its word becomes the slot, unless a
    /// smaller slot stands there. Lost exactly where a word was a smaller slot, with the least such. The mesh
    /// is the one that the claims were opened with. Takes no memory.
    pub fn claim(&self, points: &Points, mesh: &Mesh, seat: &mut ClaimSeat, slot: u32) -> Claim
        requires belongs { Belongs self.now seat.old }
        requires same_mesh { mesh.now ≡ self.now.mesh }
        requires shortens { Shortens points.now.points mesh.now slot }
        ensures seat { IsSameSeat seat.old seat.new × Belongs self.now seat.new }
        ensures kept { Remembers seat.old.known seat.new.known }
        ensures steps { (l r x y : ℕ) × HasPair mesh.now slot l r × (result ≡ claim_of slot x y)
            × (seat.new.known ≡ claimed_view r slot y (claimed_view l slot x seat.old.known)) }
        ensures claimed { (t : ℕ) → HasTriangle mesh.now slot t → Contains seat.new.known.claimed (claim_on t slot) }
        ensures lost { (s : ℕ) → result ≡ Claim.Lost s → s < slot }
    {
        let Some((left, right)) = mesh.pair(slot) else {
            unreachable!()
        };
        let shared = &self.table.shared;
        let first = shared.fetch_min::<Lower>(&mut seat.place, left as usize, slot as u64);
        let second = shared.fetch_min::<Lower>(&mut seat.place, right as usize, slot as u64);
        Claim::of(slot, first, second)
    }
}
