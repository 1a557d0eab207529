// Whether the marks are settled: a pass over the edges.
ghost use Rattle.std.specs.Prelude.{◌≡◌, ℕ, ◌+◌, ◌*◌, ◌/◌, ◌<◌, ◌≤◌, true, false, List, length, Contains};
ghost use Rattle.lmt_network.specs.Numbers.{IsHullNumber, IsBroken};
ghost use Rattle.edge_marks.specs.declared.view.Loaded.{Loaded};
ghost use Rattle.edge_marks.specs.declared.view.Pass.TheVariants.{InPass};
ghost use Rattle.edge_marks.specs.Rule.{AreJudged};
ghost use Rattle.edge_marks.specs.Handles.{IsSameSeat, Belongs};
ghost use Rattle.edge_marks.specs.Plays.{settled_view};
ghost use Rattle.edge_marks.specs.Words.{begun_word, most_kills};
ghost use Rattle.mark_seats.specs.Supports.{Asked};
ghost use Rattle.edge_marks.specs.Told.{Remembers, looked_all, FoundLive, WasJudged, entered, SettledBy};

use crate::answer::{Found, Look, Settle};
use crate::handles::{Marks, Seat};
use crate::plays::{OpenPass, ReadFinished, SettlePass};
use lmt_network::Network;

impl Marks {
    // A load of `begun`, and then one of `finished`.
    fn open_pass(&self, seat: &mut Seat) -> (u64, u64)
        requires { Belongs self.now seat.old }
        ensures seat { IsSameSeat seat.old seat.new × Belongs self.now seat.new }
        ensures view { (seat.new.known ≡ entered self.now.net result.0 result.1 seat.old.known)
            × (seat.old.known.low ≤ result.0) × (result.0 ≤ most_kills self.now.net) }
    {
        let shared = &self.table.shared;
        let begun = shared.load::<OpenPass>(&mut seat.place, self.begun());
        let finished = shared.load::<ReadFinished>(&mut seat.place, self.finished());
        (begun, finished)
    }

    // A load of `begun` at the end of a pass in which each edge was judged.
    fn end_pass(&self, seat: &mut Seat) -> u64
        requires belongs { Belongs self.now seat.old }
        requires judged { (b : ℕ) × (loads : List Loaded) × (seat.old.known.pass ≡ InPass b loads) × AreJudged self.now.net loads }
        ensures seat { IsSameSeat seat.old seat.new × Belongs self.now seat.new }
        ensures view { (seat.new.known ≡ settled_view (begun_word self.now.net) result seat.old.known)
            × (seat.old.known.low ≤ result) × (result ≤ most_kills self.now.net) }
    {
        let shared = &self.table.shared;
        shared.load::<SettlePass>(&mut seat.place, self.begun())
    }

    // Whether the edge is no hull edge, is live and has no support. If not, the loads of the call judge it.
    fn is_lone(&self, net: &Network, seat: &mut Seat, e: u32) -> bool
        requires belongs { Belongs self.now seat.old × (net.now ≡ self.now.net) }
        requires inside { e < length self.now.net.edges }
        ensures seat { IsSameSeat seat.old seat.new × Belongs self.now seat.new }
        ensures told { (ls : List Asked) × (seat.new.known ≡ looked_all ls seat.old.known)
            × (result ≡ false → WasJudged self.now.net ls e)
            × (result ≡ true → (¬ IsHullNumber self.now.net e) × FoundLive ls e × IsBroken self.now.net seat.new.known.seen e × (¬ Contains seat.new.known.tried e)) }
    {
        if net.is_hull(e) {
            return false;
        }
        if let Look::Killed = self.look(seat, e) {
            return false;
        }
        match self.examine(net, seat, e) {
            Found::Supported(_, _) => false,
            Found::Unsupported => true,
        }
    }

    /// Finds out whether the edges that are not killed are the live list. It loads `begun` and `finished`:
    /// InFlight where these differ. Else it goes through the edges, ascending: Lone where one is no hull
    /// edge, was loaded live and is found without a support. Else it loads `begun` again: Moved where more
    /// kills have begun, and Quiet where none has. After Quiet the seat is settled, for good. The loads of
    /// this call judged each edge before that of Lone, and all edges where it answers Moved or Quiet.
    pub fn settle(&self, net: &Network, seat: &mut Seat) -> Settle
        requires { Belongs self.now seat.old × (net.now ≡ self.now.net) }
        ensures seat { IsSameSeat seat.old seat.new × Belongs self.now seat.new }
        ensures kept { Remembers seat.old.known seat.new.known }
        ensures told { SettledBy self.now.net seat.old.known seat.new.known result }
        ensures low { (seat.old.known.low ≤ seat.new.known.low) × (seat.new.known.low ≤ most_kills self.now.net) }
        ensures later { (before after : ℕ) → result ≡ Settle.Moved before after → seat.old.known.low < seat.new.known.low }
    {
        let (begun, finished) = self.open_pass(seat);
        if begun != finished {
            return Settle::InFlight { begun, finished };
        }
        for e in 0..net.edges() {
            if self.is_lone(net, seat, e) {
                return Settle::Lone(e);
            }
        }
        let last = self.end_pass(seat);
        if begun < last {
            return Settle::Moved {
                before: begun,
                after: last,
            };
        }
        Settle::Quiet
    }
}
