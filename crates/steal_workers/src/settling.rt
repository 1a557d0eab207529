// The live list, by a team of workers.
ghost use Rattle.std.specs.Prelude.{◌≡◌, ◌<◌, ◌≤◌, length, All, IfOk};
ghost use Rattle.mwt_base.specs.Limits.{most_workers};
ghost use Rattle.exact_predicates.specs.declared.diamond.Diamond.{Diamond};
ghost use Rattle.exact_predicates.specs.Candidates.{AreCandidates};
ghost use Rattle.lmt_network.specs.Flags.{live_numbers, live_edges};
ghost use Rattle.lmt_network.specs.Live.{IsLive};
ghost use Rattle.lmt_network.specs.Numbers.{AreLive};
ghost use Rattle.edge_marks.specs.Handles.{Belongs, MarksView};
ghost use Rattle.steal_workers.specs.Workers.{HasEnded, HaveEndedAt};

use crate::dealing::Dealing;
use crate::worker::WorkerState;
use edge_marks::Marks;
use lmt_network::{Flags, Network, plain_settle};
use mwt_base::{Gate, NoMemory};
use std::alloc::Global;
use std::thread;
use std::thread::Threads;

/// The live list, as flags, and the workers who found it, each with the end of its run.
#[derive(Drop)]
pub struct Settled {
    pub flags: Flags,
    pub team: Vec<WorkerState>,
}

fn run_one<G: Gate>(worker: &mut WorkerState, marks: &Marks, net: &Network, gate: &G)
    requires { Belongs marks.now worker.old.seat × (net.now ≡ marks.now.net) }
    ensures belongs { Belongs marks.now worker.new.seat }
    ensures ended { HasEnded worker.new }
{
    worker.run(marks, net, gate);
}

// Runs all workers, each in a thread of its own, and waits for them.
fn run_all<R: Threads + Sync, G: Gate>(
    rt: &R,
    team: &mut [WorkerState],
    marks: &Marks,
    net: &Network,
    gate: &G,
)
    requires { All (λ w. Belongs marks.now w.seat) team.old × (net.now ≡ marks.now.net) × (0 < length team.old) }
    ensures count { length team.new ≡ length team.old }
    ensures belongs { All (λ w. Belongs marks.now w.seat) team.new }
    ensures ended { All (λ w. HasEnded w) team.new }
{
    let threads = team.len();
    thread::for_each_mut(
        rt,
        team,
        threads,
        &|_, worker: &mut WorkerState|
            requires { Belongs marks.now worker.old.seat × (net.now ≡ marks.now.net) }
        { run_one(worker, marks, net, gate) },
    );
}

/// The live list of the network, which so many workers find at the same time, from 1 to 64 of them. It opens
/// marks, makes the team, runs each worker in a thread, closes the marks, and ends by plain elimination,
/// which changes nothing where a worker answered Quiet. The flags are the same for each number of workers
/// and each dealing.
pub fn settle_all<R: Threads + Sync, G: Gate>(
    rt: &R,
    alloc: Global,
    net: &Network,
    workers: u32,
    dealing: Dealing,
    gate: &G,
) -> Result<Settled, NoMemory>
    requires some { 0 < workers }
    requires few { workers ≤ most_workers }
    ensures one_each { IfOk result (λ s. length s.flags ≡ length net.now.edges) }
    ensures live { IfOk result (λ s. AreLive net.now (live_numbers s.flags)) }
    ensures live_edges { IfOk result (λ s. (diamond : Diamond)
        → AreCandidates net.now.points net.now.hull diamond net.now.edges
        → IsLive net.now.points net.now.hull diamond (live_edges net.now s.flags)) }
    ensures count { IfOk result (λ s. length s.team.items ≡ workers) }
    ensures ended { IfOk result (λ s. (marks : MarksView) × HaveEndedAt net.now workers s.team.items marks) }
{
    let (marks, mut seat) = Marks::open(alloc, net, workers + 1)?;
    let mut team = WorkerState::team(alloc, net, &marks, &mut seat, workers, dealing)?;
    run_all(rt, team.as_mut_slice(), &marks, net, gate);
    let mut flags = marks.close(seat);
    plain_settle(net, &mut flags);
    Ok(Settled { flags, team })
}
