// The run of a worker: tasks and passes in turn.
ghost use Rattle.std.specs.Prelude.{◌≡◌, ◌<◌, ◌≤◌, length, IfSome, IfNone};
ghost use Rattle.edge_marks.specs.Handles.{Belongs};
ghost use Rattle.edge_marks.specs.Words.{most_kills};
ghost use Rattle.steal_workers.specs.Workers.{GoesOn, EndsRun};

use crate::answer::RunEnd;
use crate::examining::{attend, kill};
use crate::supply::Supply;
use edge_marks::{Marks, Seat, Settle};
use lmt_network::Network;
use mwt_base::Gate;

// How many tasks a worker does between two passes at most, for each edge of the network.
const TASKS_FOR_EACH: u64 = 64;

// Goes through tasks until none is found, but no more than 64 for each edge.
fn go_through_tasks<G: Gate>(
    marks: &Marks,
    net: &Network,
    gate: &G,
    number: u32,
    seat: &mut Seat,
    supply: &mut Supply,
)
    requires belongs { Belongs marks.now seat.old × (net.now ≡ marks.now.net) }
    requires edges { supply.old.edges ≡ length net.now.edges }
    ensures { GoesOn marks.now seat.old seat.new supply.old supply.new }
{
    'tasks: for _ in 0..TASKS_FOR_EACH * net.edges() as u64 {
        let Some(e) = supply.next() else {
            return;
        };
        attend(marks, net, gate, number, seat, supply, e);
    }
}

// One pass. After Lone its edge is killed. It answers how the run ends, or None after Lone and Moved, when
// more kills have begun than the seat knew of.
fn settle_once(marks: &Marks, net: &Network, seat: &mut Seat, supply: &mut Supply) -> Option<RunEnd>
    requires belongs { Belongs marks.now seat.old × (net.now ≡ marks.now.net) }
    requires edges { supply.old.edges ≡ length net.now.edges }
    ensures on { GoesOn marks.now seat.old seat.new supply.old supply.new }
    ensures ends { IfSome result (EndsRun seat.old.known seat.new.known) }
    ensures later { IfNone result ((seat.old.known.low < seat.new.known.low) × (seat.new.known.low ≤ most_kills marks.now.net)) }
{
    match marks.settle(net, seat) {
        Settle::Quiet => Some(RunEnd::Quiet),
        Settle::InFlight { begun, finished } => Some(RunEnd::InFlight { begun, finished }),
        Settle::Lone(e) => {
            kill(marks, net, seat, supply, e);
            None
        }
        Settle::Moved { .. } => None,
    }
}

// Goes through tasks and settles in turn, until a pass answers Quiet or InFlight.
pub fn work<G: Gate>(
    marks: &Marks,
    net: &Network,
    gate: &G,
    number: u32,
    seat: &mut Seat,
    supply: &mut Supply,
) -> RunEnd
    requires belongs { Belongs marks.now seat.old × (net.now ≡ marks.now.net) }
    requires edges { supply.old.edges ≡ length net.now.edges }
    ensures on { GoesOn marks.now seat.old seat.new supply.old supply.new }
    ensures ends { EndsRun seat.old.known seat.new.known result }
{
    'rounds: loop {
        go_through_tasks(marks, net, gate, number, seat, supply);
        if let Some(end) = settle_once(marks, net, seat, supply) {
            return end;
        }
    }
}
