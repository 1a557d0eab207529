// What a seat finds out about the support of an edge.
ghost use Rattle.std.specs.Prelude.{◌≡◌, ◌≢◌, ℕ, ◌<◌, true, false, List, length, Contains, IfSome, IfNone};
ghost use Rattle.lmt_network.specs.Numbers.{IsMinimalPair, IsOnLeft, IsOnRight};
ghost use Rattle.edge_marks.specs.Handles.{IsSameSeat, Belongs};
ghost use Rattle.mark_seats.specs.Supports.{Asked, AskForSidesOf, AskForSides, HasLiveSides, HasKilledSide, IsLivePair, IsBrokenWith};
ghost use Rattle.edge_marks.specs.Told.{Remembers, looked_all, FoundLive, FoundBy, MakesLoads};

use crate::answer::{Found, Look};
use crate::handles::{Marks, Seat};
use lmt_network::Network;

impl Marks {
    // Whether f is e, or is loaded live.
    fn passes(&self, seat: &mut Seat, f: u32, e: u32) -> bool
        requires belongs { Belongs self.now seat.old }
        requires inside { f < length self.now.net.edges }
        ensures seat { IsSameSeat seat.old seat.new × Belongs self.now seat.new }
        ensures told { (ls : List Asked) × (seat.new.known ≡ looked_all ls seat.old.known)
            × ((l : Asked) → Contains ls l → (l.edge ≡ f) × (f ≢ e))
            × (result ≡ true → f ≢ e → FoundLive ls f)
            × (result ≡ false → (f ≢ e) × Contains seat.new.known.seen f) }
    {
        if f == e {
            return true;
        }
        match self.look(seat, f) {
            Look::Live => true,
            Look::Killed => false,
        }
    }

    // Whether each side of the triangle t but e is loaded live.
    fn has_live_sides(&self, net: &Network, seat: &mut Seat, e: u32, t: u32) -> bool
        requires belongs { Belongs self.now seat.old × (net.now ≡ self.now.net) }
        requires t_in { t < length self.now.net.tris }
        ensures seat { IsSameSeat seat.old seat.new × Belongs self.now seat.new }
        ensures told { (ls : List Asked) × (seat.new.known ≡ looked_all ls seat.old.known) × AskForSidesOf self.now.net e t ls
            × (result ≡ true → HasLiveSides self.now.net e t (FoundLive ls))
            × (result ≡ false → HasKilledSide self.now.net e t seat.new.known.seen) }
    {
        let sides = net.sides(t);
        for k in 0..sides.len() {
            if !self.passes(seat, sides[k], e) {
                return false;
            }
        }
        true
    }

    // Whether e is locally minimal between l and r, and each side of r but e is loaded live.
    fn pairs_with(&self, net: &Network, seat: &mut Seat, e: u32, l: u32, r: u32) -> bool
        requires belongs { Belongs self.now seat.old × (net.now ≡ self.now.net) }
        requires inside { e < length self.now.net.edges }
        requires on_left { IsOnLeft self.now.net e l }
        requires on_right { IsOnRight self.now.net e r }
        ensures seat { IsSameSeat seat.old seat.new × Belongs self.now seat.new }
        ensures told { (ls : List Asked) × (seat.new.known ≡ looked_all ls seat.old.known) × AskForSidesOf self.now.net e r ls
            × (result ≡ true → IsMinimalPair self.now.net e l r × HasLiveSides self.now.net e r (FoundLive ls))
            × (result ≡ false → IsMinimalPair self.now.net e l r → HasKilledSide self.now.net e r seat.new.known.seen) }
    {
        if !self.has_live_sides(net, seat, e, r) {
            return false;
        }
        net.minimal_pair(e, l, r)
    }

    // A triangle with which l makes a locally minimal pair whose other sides are all loaded live.
    fn partner(&self, net: &Network, seat: &mut Seat, e: u32, l: u32) -> Option<u32>
        requires belongs { Belongs self.now seat.old × (net.now ≡ self.now.net) }
        requires inside { e < length self.now.net.edges }
        requires on_left { IsOnLeft self.now.net e l }
        ensures seat { IsSameSeat seat.old seat.new × Belongs self.now seat.new }
        ensures told { (ls : List Asked) × (seat.new.known ≡ looked_all ls seat.old.known) × AskForSides self.now.net e ls
            × IfSome result (λ r. IsLivePair self.now.net e l r (FoundLive ls))
            × IfNone result (IsBrokenWith self.now.net e l seat.new.known.seen) }
    {
        if !self.has_live_sides(net, seat, e, l) {
            return None;
        }
        for r in net.right(e) {
            if self.pairs_with(net, seat, e, l, *r) {
                return Some(*r);
            }
        }
        None
    }

    // Whether e is locally minimal between l and r, and each other side of both is loaded live.
    fn stands(&self, net: &Network, seat: &mut Seat, e: u32, l: u32, r: u32) -> bool
        requires belongs { Belongs self.now seat.old × (net.now ≡ self.now.net) }
        requires inside { e < length self.now.net.edges }
        requires on_left { IsOnLeft self.now.net e l }
        requires on_right { IsOnRight self.now.net e r }
        ensures seat { IsSameSeat seat.old seat.new × Belongs self.now seat.new }
        ensures told { (ls : List Asked) × (seat.new.known ≡ looked_all ls seat.old.known) × AskForSides self.now.net e ls
            × (result ≡ true → IsLivePair self.now.net e l r (FoundLive ls)) }
    {
        if !self.has_live_sides(net, seat, e, l) {
            return false;
        }
        self.pairs_with(net, seat, e, l, r)
    }

    // The support that the seat found last, where it still stands.
    fn last_support(&self, net: &Network, seat: &mut Seat, e: u32) -> Option<(u32, u32)>
        requires belongs { Belongs self.now seat.old × (net.now ≡ self.now.net) }
        requires inside { e < length self.now.net.edges }
        ensures seat { IsSameSeat seat.old seat.new × Belongs self.now seat.new }
        ensures told { (ls : List Asked) × (seat.new.known ≡ looked_all ls seat.old.known) × AskForSides self.now.net e ls
            × IfSome result (λ pair. IsLivePair self.now.net e pair.0 pair.1 (FoundLive ls)) }
    {
        let (l, r) = seat.last_pair(net, e)?;
        if self.stands(net, seat, e, l, r) {
            return Some((l, r));
        }
        None
    }

    // Goes through all pairs, until one is a support.
    fn search(&self, net: &Network, seat: &mut Seat, e: u32) -> Found
        requires belongs { Belongs self.now seat.old × (net.now ≡ self.now.net) }
        requires inside { e < length self.now.net.edges }
        ensures seat { IsSameSeat seat.old seat.new × Belongs self.now seat.new }
        ensures told { (ls : List Asked) × (seat.new.known ≡ looked_all ls seat.old.known) × AskForSides self.now.net e ls
            × FoundBy self.now.net e ls seat.new.known.seen result }
    {
        for l in net.left(e) {
            if let Some(r) = self.partner(net, seat, e, *l) {
                return Found::Supported(*l, r);
            }
        }
        Found::Unsupported
    }

    /// Looks for a support of the edge: a triangle on its left and one on its right between which it is
    /// locally minimal, each other side of which was loaded live in this call (Dickerson and Montague,
    /// 1996). Unsupported where the seat has seen killed another side of each locally minimal pair.
    pub fn examine(&self, net: &Network, seat: &mut Seat, e: u32) -> Found
        requires belongs { Belongs self.now seat.old × (net.now ≡ self.now.net) }
        requires inside { e < length self.now.net.edges }
        ensures seat { IsSameSeat seat.old seat.new × Belongs self.now seat.new }
        ensures kept { Remembers seat.old.known seat.new.known }
        ensures told { (ls : List Asked) × (seat.new.known ≡ looked_all ls seat.old.known) × AskForSides self.now.net e ls
            × FoundBy self.now.net e ls seat.new.known.seen result }
        ensures steps { (ls : List Asked) × MakesLoads ls seat.old.known seat.new.known × AskForSides self.now.net e ls
            × FoundBy self.now.net e ls seat.new.known.seen result }
        ensures tried { seat.new.known.tried ≡ seat.old.known.tried }
    {
        if let Some((l, r)) = self.last_support(net, seat, e) {
            return Found::Supported(l, r);
        }
        let found = self.search(net, seat, e);
        seat.keep(net, e, found);
        found
    }
}
