// A team: workers who may steal from each other, among whom the edges are dealt.
ghost use Rattle.std.specs.Prelude.{◌≡◌, ℕ, ◌+◌, ◌<◌, ◌≤◌, length, All, IfOk, OnOk};
ghost use Rattle.std.specs.Arc.{arc_value};
ghost use Rattle.mwt_base.specs.Limits.{most_workers};
ghost use Rattle.edge_marks.specs.Handles.{Belongs, IsSameSeat};
ghost use Rattle.edge_marks.specs.Told.{Remembers};
ghost use Rattle.steal_workers.specs.Workers.{WorkerView, AreTeam};

use crate::dealing::Dealing;
use crate::due::Due;
use crate::worker::WorkerState;
use edge_marks::{Marks, Seat};
use lmt_network::Network;
use mwt_base::NoMemory;
use std::alloc::Global;
use std::sync::Arc;

// Workers with no tasks, who cannot steal yet.
fn strangers(
    alloc: Global,
    net: &Network,
    marks: &Marks,
    seat: &mut Seat,
    due: &Arc<Due>,
    workers: u32,
) -> Result<Vec<WorkerState>, NoMemory>
    requires belongs { Belongs marks.now seat.old × (net.now ≡ marks.now.net) }
    requires due { arc_value due.now ≡ length net.now.edges }
    requires splits { workers ≤ seat.old.known.splits }
    ensures seat { IsSameSeat seat.old seat.new × Belongs marks.now seat.new }
    ensures kept { Remembers seat.old.known seat.new.known }
    ensures splits { OnOk result (seat.new.known.splits + workers ≡ seat.old.known.splits) }
    ensures team { IfOk result (λ team. (length team.items ≡ workers) × AreTeam marks.now team.items) }
{
    let mut team = Vec::with_capacity(alloc, workers as usize)?;
    for number in 0..workers {
        let own = marks.split(seat);
        let shared = Arc::try_clone(due)?;
        team.push(WorkerState::of(alloc, net, own, number, shared)?)?;
    }
    Ok(team)
}

// Each worker meets all others, from the next number round.
fn introduce(team: &mut [WorkerState]) -> Result<(), NoMemory>
    requires { (edges : ℕ) × All (λ w. length w.seat.known.net.edges ≡ edges) team.old }
    ensures { team.new ≡ team.old }
{
    let count = team.len();
    for k in 0..count {
        for step in 1..count {
            let thief = team[(k + step) % count].lend()?;
            team[k].meet(thief)?;
        }
    }
    Ok(())
}

// Each worker puts what waits for it into its deque, so that others may steal it before the worker runs.
fn fill_deques(team: &mut [WorkerState])
    ensures { team.new ≡ team.old }
{
    for k in 0..team.len() {
        team[k].refill();
    }
}

// What waits at first: each edge, for the worker to whom it is dealt.
fn dealt(alloc: Global, net: &Network, workers: u32, dealing: Dealing) -> Result<Arc<Due>, NoMemory>
    requires { 0 < workers }
    ensures { IfOk result (λ due. arc_value due ≡ length net.now.edges) }
{
    let due = Due::dealt(alloc, net.edges(), workers, dealing)?;
    Ok(Arc::new(alloc, due)?)
}

impl WorkerState {
    /// Workers in the order of their numbers, from 0 on, each with a seat split off from this one; there are
    /// from 1 to 64 of them. The edges are dealt to them as tasks. The seat may then split off so many fewer.
    /// Where memory runs out it may have fewer splits.
    pub fn team(
        alloc: Global,
        net: &Network,
        marks: &Marks,
        seat: &mut Seat,
        workers: u32,
        dealing: Dealing,
    ) -> Result<Vec<WorkerState>, NoMemory>
        requires belongs { Belongs marks.now seat.old × (net.now ≡ marks.now.net) }
        requires some { 0 < workers }
        requires few { workers ≤ most_workers }
        requires splits { workers ≤ seat.old.known.splits }
        ensures seat { IsSameSeat seat.old seat.new × Belongs marks.now seat.new }
        ensures kept { Remembers seat.old.known seat.new.known }
        ensures splits { OnOk result (seat.new.known.splits + workers ≡ seat.old.known.splits) }
        ensures count { IfOk result (λ team. length team.items ≡ workers) }
        ensures team { IfOk result (λ team. AreTeam marks.now team.items) }
    {
        let due = dealt(alloc, net, workers, dealing)?;
        let mut team = strangers(alloc, net, marks, seat, &due, workers)?;
        introduce(team.as_mut_slice())?;
        fill_deques(team.as_mut_slice());
        Ok(team)
    }
}
