// Threads that claim the triangles of slots.
ghost use Rattle.std.specs.Prelude.{◌≡◌, ℕ, ◌+◌, ◌<◌, ◌≤◌, [], length, slice_index_or, All, IfOk, OnOk};
ghost use Rattle.mwt_base.specs.Limits.{most_workers};
ghost use Rattle.flip_finish.specs.Flipping.{Shortens};
ghost use Rattle.flip_claims.specs.Handles.{Belongs, SeatView};
ghost use Rattle.flip_claims.specs.Rounds.{AreLeast, Gathers, HasClaimedStripe};
ghost use Rattle.flip_claims.specs.Words.{most_seats};

use crate::close::ClaimWords;
use crate::handles::{ClaimSeat, Claims};
use exact_predicates::Points;
use flip_finish::Mesh;
use mwt_base::{Gate, NoMemory, Place};
use std::alloc::Global;
use std::thread;
use std::thread::Threads;

// Claims the triangles of the slots at the places that are dealt to this number of so many, each to one
// number in turn.
fn claim_stripe<G: Gate>(
    claims: &Claims,
    points: &Points,
    mesh: &Mesh,
    slots: &[u32],
    gate: &G,
    workers: u32,
    number: u32,
    seat: &mut ClaimSeat,
)
    requires belongs { Belongs claims.now seat.old × (mesh.now ≡ claims.now.mesh) }
    requires shorten { All (Shortens points.now.points mesh.now) slots.now }
    requires number { number < workers }
    requires blank { seat.old.known.claimed ≡ [] }
    ensures belongs { Belongs claims.now seat.new }
    ensures claimed { HasClaimedStripe mesh.now slots.now workers number seat.new.known.claimed }
    ensures shares { seat.new.known.shares ≡ seat.old.known.shares }
{
    gate.at(number, Place::Begin);
    let mut place = number as usize;
    while place < slots.len() {
        gate.at(number, Place::Edge);
        claims.claim(points, mesh, seat, slots[place]);
        place += workers as usize;
    }
    gate.at(number, Place::End);
}

// Lets all of them claim, each in a thread of its own, and waits for them.
fn claim_all<R: Threads + Sync, G: Gate>(
    rt: &R,
    claims: &Claims,
    points: &Points,
    mesh: &Mesh,
    slots: &[u32],
    gate: &G,
    team: &mut [ClaimSeat],
)
    requires same_mesh { mesh.now ≡ claims.now.mesh }
    requires shorten { All (Shortens points.now.points mesh.now) slots.now }
    requires some { (0 < length team.old) × (length team.old ≤ most_workers) }
    requires team { All (λ s. Belongs claims.now s × (s.known.claimed ≡ []) × (s.known.shares ≡ 1)) team.old }
    ensures count { length team.new ≡ length team.old }
    ensures team { All (λ s. Belongs claims.now s × (s.known.shares ≡ 1)) team.new }
    ensures claimed { (k : ℕ) (d : SeatView) → k < length team.new →
        HasClaimedStripe mesh.now slots.now (length team.old) k (slice_index_or team.new k d).known.claimed }
{
    let threads = team.len();
    let workers = threads as u32;
    thread::for_each_mut(
        rt,
        team,
        threads,
        &|number, seat: &mut ClaimSeat|
            requires { Belongs claims.now seat.old × (mesh.now ≡ claims.now.mesh)
                × All (Shortens points.now.points mesh.now) slots.now
                × (number < workers) × (seat.old.known.claimed ≡ []) }
        {
            claim_stripe(
                claims,
                points,
                mesh,
                slots,
                gate,
                workers,
                number as u32,
                seat,
            )
        },
    );
}

// So many seats.
fn recruits(
    alloc: Global,
    claims: &Claims,
    seat: &mut ClaimSeat,
    workers: u32,
) -> Result<Vec<ClaimSeat>, NoMemory>
    requires belongs { Belongs claims.now seat.old }
    requires splits { workers ≤ seat.old.known.splits }
    requires shares { workers < seat.old.known.shares }
    ensures belongs { OnOk result (Belongs claims.now seat.new) }
    ensures claimed { OnOk result (seat.new.known.claimed ≡ seat.old.known.claimed) }
    ensures shares { OnOk result (seat.new.known.shares + workers ≡ seat.old.known.shares) }
    ensures count { IfOk result (λ team. length team.items ≡ workers) }
    ensures team { IfOk result (λ team. All (λ s. Belongs claims.now s × (s.known.claimed ≡ []) × (s.known.shares ≡ 1)) team.items) }
{
    let mut team = Vec::with_capacity(alloc, workers as usize)?;
    'recruit: for _ in 0..workers {
        team.push(claims.split(seat))?;
    }
    Ok(team)
}

// Joins all of them with this one.
fn join_all(claims: &Claims, seat: &mut ClaimSeat, mut team: Vec<ClaimSeat>)
    requires belongs { Belongs claims.now seat.old }
    requires team { All (λ s. Belongs claims.now s × (s.known.shares ≡ 1)) team.items }
    ensures belongs { Belongs claims.now seat.new }
    ensures gathers { Gathers seat.old.known team.items seat.new.known }
{
    while let Some(other) = team.pop() {
        claims.join(seat, other);
    }
}

// The words of the triangles, after so many threads have claimed them for these slots, which are dealt to
// the threads in turn.
pub fn claimed_words<R: Threads + Sync, G: Gate>(
    rt: &R,
    alloc: Global,
    points: &Points,
    mesh: &Mesh,
    slots: &[u32],
    workers: u32,
    gate: &G,
) -> Result<ClaimWords, NoMemory>
    requires shorten { All (Shortens points.now.points mesh.now) slots.now }
    requires some { 0 < workers }
    requires few { workers ≤ most_workers }
    ensures { IfOk result (AreLeast mesh.now slots.now) }
{
    let (claims, mut seat) = Claims::open(alloc, mesh, workers + 1)?;
    let mut team = recruits(alloc, &claims, &mut seat, workers)?;
    claim_all(rt, &claims, points, mesh, slots, gate, team.as_mut_slice());
    join_all(&claims, &mut seat, team);
    Ok(claims.close(seat))
}
