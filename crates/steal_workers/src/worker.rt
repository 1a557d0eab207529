// Workers.
ghost use Rattle.std.specs.Prelude.{◌≡◌, ◌<◌, ◌≤◌, Some, None, length, IfSome, IfOk};
ghost use Rattle.std.specs.Arc.{arc_value};
ghost use Rattle.edge_marks.specs.Handles.{Belongs, IsSameSeat};
ghost use Rattle.edge_marks.specs.Told.{Remembers};
ghost use Rattle.steal_workers.specs.Workers.{EndHolds, EndsRun, worker};

use crate::answer::RunEnd;
use crate::due::Due;
use crate::running::work;
use crate::supply::Supply;
use crate::tasks::Thief;
use edge_marks::{Marks, Seat};
use lmt_network::Network;
use mwt_base::{Gate, NoMemory, Place};
use std::alloc::Global;
use std::marker::Model;
use std::sync::Arc;

/// One of a team of workers. It has a seat at the marks of the team, a row of tasks, and a deque of groups
/// of these from which the others may steal. A task is an edge whose support is to be examined; a group is
/// those of up to 64 edges that follow one another.
#[derive(Drop)]
pub struct WorkerState {
    number: u32,
    seat: Seat,
    supply: Supply,
    // How the last run ended.
    end: Option<RunEnd>,
}

impl Model for WorkerState {
    ghost use Rattle.std.specs.Prelude.{◌≡◌, length, IfSome};
    ghost use Rattle.steal_workers.specs.Workers.{WorkerView, EndHolds, worker};

    ghost Value = { WorkerView };

    ghost view = { λ w. worker w.number w.seat w.supply.stolen w.end };

    ghost invariant = { λ w. (w.supply.edges ≡ length w.seat.known.net.edges) × IfSome w.end (EndHolds w.seat.known) };
}

impl WorkerState {
    // A worker that was not run, of a team for which this waits.
    pub(crate) fn of(
        alloc: Global,
        net: &Network,
        mut seat: Seat,
        number: u32,
        due: Arc<Due>,
    ) -> Result<WorkerState, NoMemory>
        requires seat { seat.known.net ≡ net.now }
        requires due { arc_value due ≡ length net.now.edges }
        ensures { IfOk result (λ w. w ≡ worker number seat 0 None) }
    {
        let supply = Supply::of(alloc, number, due)?;
        // Where there is no room for the places of its supports, the worker goes on without.
        let _ = seat.keep_supports(alloc, net);
        Ok(WorkerState {
            number,
            seat,
            supply,
            end: None,
        })
    }

    // Puts what waits for it into its deque.
    pub(crate) fn refill(&mut self)
        ensures { self.new ≡ self.old }
    {
        self.supply.refill();
    }

    // What another worker steals from this one with.
    pub(crate) fn lend(&mut self) -> Result<Thief, NoMemory>
        ensures same { self.new ≡ self.old }
        ensures lent { IfOk result (λ t. t ≡ length self.old.seat.known.net.edges) }
    {
        self.supply.lend()
    }

    // One more worker to steal from.
    pub(crate) fn meet(&mut self, thief: Thief) -> Result<(), NoMemory>
        requires { thief ≡ length self.old.seat.known.net.edges }
        ensures { self.new ≡ self.old }
    {
        self.supply.meet(thief)
    }

    /// Kills edges without a support until none is found, and answers what the last pass over all edges
    /// found. It goes through its row, upwards and downwards by turns, and steals a group by one try from each
    /// other worker where no task is left there. It examines an edge that is no hull edge, not tried by its
    /// seat and not killed. Where it is the first to kill it, the edges around that may have lost their
    /// support become tasks, each in the row of the worker to whom it was dealt. Where no task is left, or
    /// after 64 for each edge, it settles: after Lone it kills that edge, after Moved it goes on.
    ///
    /// Quiet: the worker's seat is settled. InFlight: the last two steps of the seat were made in this call,
    /// and are a load of `begun` and one of `finished` that gave these numbers, which differ. A group that
    /// finds no memory is dropped, since the pass finds its edges. The gate is passed with Begin first, with
    /// Edge before each edge is examined, and with End last.
    pub fn run<G: Gate>(&mut self, marks: &Marks, net: &Network, gate: &G) -> RunEnd
        requires { Belongs marks.now self.old.seat × (net.now ≡ marks.now.net) }
        ensures number { self.new.number ≡ self.old.number }
        ensures stolen { self.old.stolen ≤ self.new.stolen }
        ensures seat { IsSameSeat self.old.seat self.new.seat × Belongs marks.now self.new.seat }
        ensures kept { Remembers self.old.seat.known self.new.seat.known }
        ensures answer { self.new.end ≡ Some result }
        ensures ends { EndsRun self.old.seat.known self.new.seat.known result }
    {
        gate.at(self.number, Place::Begin);
        self.supply.begin();
        let end = work(
            marks,
            net,
            gate,
            self.number,
            &mut self.seat,
            &mut self.supply,
        );
        self.supply.end();
        self.end = Some(end);
        gate.at(self.number, Place::End);
        end
    }

    /// What the last run answered, and None exactly where the worker was not run.
    pub fn end(&self) -> Option<RunEnd>
        ensures value { result ≡ self.now.end }
        ensures meaning { IfSome result (EndHolds self.now.seat.known) }
    {
        self.end
    }

    /// How many tasks the worker has stolen, those of a group one by one. The count stays at 2^64 - 1 once it is reached.
    pub fn stolen(&self) -> u64
        ensures { result ≡ self.now.stolen }
    {
        self.supply.stolen()
    }
}
