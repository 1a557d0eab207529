// What a worker does with a task: it examines the edge, and kills it where it has no support.
ghost use Rattle.std.specs.Prelude.{◌≡◌, ◌<◌, ◌≤◌, length, Contains};
ghost use Rattle.lmt_network.specs.Numbers.{IsHullNumber, IsBroken};
ghost use Rattle.edge_marks.specs.Handles.{Belongs};
ghost use Rattle.edge_marks.specs.Words.{most_kills};
ghost use Rattle.steal_workers.specs.Workers.{GoesOn, LooksOn};

use crate::supply::Supply;
use edge_marks::{Found, Kill, Look, Marks, Seat};
use lmt_network::Network;
use mwt_base::{Gate, Place};

// Whether f is e, or is live.
fn is_live_or(marks: &Marks, seat: &mut Seat, f: u32, e: u32) -> bool
    requires belongs { Belongs marks.now seat.old }
    requires inside { f < length marks.now.net.edges }
    ensures { LooksOn marks.now seat.old seat.new }
{
    if f == e {
        return true;
    }
    marks.look(seat, f) == Look::Live
}

// Whether each side of the triangle t but e is live.
fn has_live_sides(marks: &Marks, net: &Network, seat: &mut Seat, e: u32, t: u32) -> bool
    requires belongs { Belongs marks.now seat.old × (net.now ≡ marks.now.net) }
    requires inside { t < length net.now.tris }
    ensures { LooksOn marks.now seat.old seat.new }
{
    let sides = net.sides(t);
    for k in 0..sides.len() {
        if !is_live_or(marks, seat, sides[k], e) {
            return false;
        }
    }
    true
}

// Pushes the sides of the triangle t that are neither e nor hull edges.
fn push_sides(net: &Network, supply: &mut Supply, e: u32, t: u32)
    requires edges { supply.old.edges ≡ length net.now.edges }
    requires inside { t < length net.now.tris }
    ensures { supply.new ≡ supply.old }
{
    let sides = net.sides(t);
    for k in 0..sides.len() {
        let f = sides[k];
        if f != e && !net.is_hull(f) {
            supply.push(f);
        }
    }
}

// Pushes the sides of the triangle t on the killed edge e, which may have lost their support with it. Where
// another side had been killed before, they had lost that triangle then.
fn push_from(marks: &Marks, net: &Network, seat: &mut Seat, supply: &mut Supply, e: u32, t: u32)
    requires belongs { Belongs marks.now seat.old × (net.now ≡ marks.now.net) }
    requires edges { supply.old.edges ≡ length net.now.edges }
    requires inside { t < length net.now.tris }
    ensures looks { LooksOn marks.now seat.old seat.new }
    ensures supply { supply.new ≡ supply.old }
{
    if has_live_sides(marks, net, seat, e, t) {
        push_sides(net, supply, e, t);
    }
}

// Pushes the edges around the killed edge.
fn push_around(marks: &Marks, net: &Network, seat: &mut Seat, supply: &mut Supply, e: u32)
    requires belongs { Belongs marks.now seat.old × (net.now ≡ marks.now.net) }
    requires edges { supply.old.edges ≡ length net.now.edges }
    requires inside { e < length net.now.edges }
    ensures looks { LooksOn marks.now seat.old seat.new }
    ensures supply { supply.new ≡ supply.old }
{
    for l in net.left(e) {
        push_from(marks, net, seat, supply, e, *l);
    }
    for r in net.right(e) {
        push_from(marks, net, seat, supply, e, *r);
    }
}

// Kills the edge. Who is the first to kill it pushes the edges around.
pub fn kill(marks: &Marks, net: &Network, seat: &mut Seat, supply: &mut Supply, e: u32)
    requires belongs { Belongs marks.now seat.old × (net.now ≡ marks.now.net) }
    requires edges { supply.old.edges ≡ length net.now.edges }
    requires inside { e < length marks.now.net.edges }
    requires inner { ¬ IsHullNumber marks.now.net e }
    requires new { ¬ Contains seat.old.known.tried e }
    requires broken { IsBroken marks.now.net seat.old.known.seen e }
    ensures on { GoesOn marks.now seat.old seat.new supply.old supply.new }
    ensures low { (seat.old.known.low < seat.new.known.low) × (seat.new.known.low ≤ most_kills marks.now.net) }
{
    match marks.kill(seat, e) {
        Kill::First => push_around(marks, net, seat, supply, e),
        Kill::Already => {}
    }
}

// Examines the edge, unless it is a hull edge, was tried or is killed, and kills it where it has no support.
pub fn attend<G: Gate>(
    marks: &Marks,
    net: &Network,
    gate: &G,
    number: u32,
    seat: &mut Seat,
    supply: &mut Supply,
    e: u32,
)
    requires belongs { Belongs marks.now seat.old × (net.now ≡ marks.now.net) }
    requires edges { supply.old.edges ≡ length net.now.edges }
    requires inside { e < length marks.now.net.edges }
    ensures { GoesOn marks.now seat.old seat.new supply.old supply.new }
{
    if net.is_hull(e) || seat.tried(e) {
        return;
    }
    if let Look::Killed = marks.look(seat, e) {
        return;
    }
    gate.at(number, Place::Edge);
    match marks.examine(net, seat, e) {
        Found::Supported(_, _) => {}
        Found::Unsupported => kill(marks, net, seat, supply, e),
    }
}
