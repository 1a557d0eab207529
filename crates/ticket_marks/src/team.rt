// Threads that kill by tickets.
ghost use Rattle.std.specs.Prelude.{◌≡◌, ℕ, ◌<◌, ◌≤◌, length, slice_index, All, IfOk};
ghost use Rattle.mwt_base.specs.Limits.{most_workers};
ghost use Rattle.lmt_network.specs.Derivation.{IsDerivation};
ghost use Rattle.lmt_network.specs.Numbers.{AreLive};
ghost use Rattle.ticket_marks.specs.Finish.{unranked, most_ranks};
ghost use Rattle.ticket_marks.specs.Handles.{Belongs};

use crate::answer::{Rank, TicketFound};
use crate::finishing::finish;
use crate::handles::{TicketMarks, TicketSeat};
use lmt_network::{Network, Ranks};
use mwt_base::{Gate, NoMemory, Place};
use std::alloc::Global;
use std::thread;
use std::thread::Threads;

// One of the threads.
#[derive(Drop)]
struct Ranker {
    number: u32,
    seat: TicketSeat,
}

// Examines the edge, unless it is a hull edge, was tried or is killed, and kills it where it has no support.
// Answers whether it did.
fn attend<G: Gate>(
    marks: &TicketMarks,
    net: &Network,
    gate: &G,
    number: u32,
    seat: &mut TicketSeat,
    e: u32,
) -> bool
    requires belongs { Belongs marks.now seat.old × (net.now ≡ marks.now.net) }
    requires inside { e < length marks.now.net.edges }
    ensures { Belongs marks.now seat.new }
{
    if net.is_hull(e) || seat.tried(e) {
        return false;
    }
    if let Rank::Killed(_) = marks.look(seat, e) {
        return false;
    }
    gate.at(number, Place::Edge);
    match marks.examine(net, seat, e) {
        TicketFound::Supported(_, _) => false,
        TicketFound::Unsupported => {
            marks.kill(seat, e);
            true
        }
    }
}

// Goes once through the edges dealt to this number of so many, each to one number in turn. Answers whether
// it killed one.
fn pass<G: Gate>(
    marks: &TicketMarks,
    net: &Network,
    gate: &G,
    number: u32,
    workers: u32,
    seat: &mut TicketSeat,
) -> bool
    requires belongs { Belongs marks.now seat.old × (net.now ≡ marks.now.net) }
    requires some { 0 < workers }
    ensures { Belongs marks.now seat.new }
{
    let mut killed = false;
    for e in 0..net.edges() {
        if e % workers == number && attend(marks, net, gate, number, seat, e) {
            killed = true;
        }
    }
    killed
}

// Passes in turn, until one kills nothing. Each but the last kills, so there are no more than edges.
fn go_through<G: Gate>(
    marks: &TicketMarks,
    net: &Network,
    gate: &G,
    workers: u32,
    ranker: &mut Ranker,
)
    requires belongs { Belongs marks.now ranker.old.seat × (net.now ≡ marks.now.net) }
    requires some { 0 < workers }
    ensures { Belongs marks.now ranker.new.seat }
{
    'passes: for _ in 0..net.edges() {
        if !pass(marks, net, gate, ranker.number, workers, &mut ranker.seat) {
            return;
        }
    }
}

fn run_one<G: Gate>(ranker: &mut Ranker, marks: &TicketMarks, net: &Network, workers: u32, gate: &G)
    requires belongs { Belongs marks.now ranker.old.seat × (net.now ≡ marks.now.net) }
    requires some { 0 < workers }
    ensures { Belongs marks.now ranker.new.seat }
{
    gate.at(ranker.number, Place::Begin);
    go_through(marks, net, gate, workers, ranker);
    gate.at(ranker.number, Place::End);
}

// Runs all of them, each in a thread of its own, and waits for them.
fn run_all<R: Threads + Sync, G: Gate>(
    rt: &R,
    team: &mut [Ranker],
    marks: &TicketMarks,
    net: &Network,
    workers: u32,
    gate: &G,
)
    requires belongs { All (λ r. Belongs marks.now r.seat) team.old × (net.now ≡ marks.now.net) }
    requires some { (0 < length team.old) × (0 < workers) }
{
    let threads = team.len();
    thread::for_each_mut(
        rt,
        team,
        threads,
        &|_, ranker: &mut Ranker|
            requires { Belongs marks.now ranker.old.seat × (net.now ≡ marks.now.net) × (0 < workers) }
        { run_one(ranker, marks, net, workers, gate) },
    );
}

// So many of them, with the numbers from 0 on.
fn recruits(
    alloc: Global,
    marks: &TicketMarks,
    seat: &mut TicketSeat,
    workers: u32,
) -> Result<Vec<Ranker>, NoMemory>
    requires belongs { Belongs marks.now seat.old }
    requires splits { workers ≤ seat.old.known.splits }
    ensures belongs { Belongs marks.now seat.new }
    ensures count { IfOk result (λ team. length team.items ≡ workers) }
    ensures team { IfOk result (λ team. All (λ r. Belongs marks.now r.seat) team.items) }
{
    let mut team = Vec::with_capacity(alloc, workers as usize)?;
    for number in 0..workers {
        let own = marks.split(seat);
        team.push(Ranker { number, seat: own })?;
    }
    Ok(team)
}

/// The ranks of an elimination by so many threads, from 1 to 64 of them, each with a seat of its own. The
/// edges are dealt to them in turn. A thread goes through its edges, ascending, and kills each without a
/// support, until a pass kills nothing; then the marks are closed, and plain elimination finishes. The ranks
/// are a derivation, and the edges with the rank 0 are the live list. The gate is passed with Begin first,
/// with Edge before each edge is examined, and with End last.
pub fn rank_all<R: Threads + Sync, G: Gate>(
    rt: &R,
    alloc: Global,
    net: &Network,
    workers: u32,
    gate: &G,
) -> Result<Ranks, NoMemory>
    requires some { 0 < workers }
    requires few { workers ≤ most_workers }
    ensures one_each { IfOk result (λ ranks. length ranks ≡ length net.now.edges) }
    ensures derivation { IfOk result (λ ranks. IsDerivation net.now ranks) }
    ensures live { IfOk result (λ ranks. AreLive net.now (unranked ranks)) }
    ensures most { IfOk result (λ ranks. (e : ℕ) → slice_index ranks e ≤ most_ranks net.now) }
{
    let (marks, mut seat) = TicketMarks::open(alloc, net, workers + 1)?;
    let mut team = recruits(alloc, &marks, &mut seat, workers)?;
    run_all(rt, team.as_mut_slice(), &marks, net, workers, gate);
    let mut ranks = marks.close(seat);
    finish(net, &mut ranks);
    Ok(ranks)
}
