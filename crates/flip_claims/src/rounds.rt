// Rounds of claimed flips.
ghost use Rattle.std.specs.Prelude.{◌≡◌, ◌↔◌, ℕ, ◌+◌, ◌^◌, ◌<◌, ◌≤◌, List, length, All, sum_by, IfOk, OnOk, OnErr};
ghost use Rattle.mwt_base.specs.Limits.{most_workers};
ghost use Rattle.exact_predicates.specs.Flip.{IsFlipMinimal};
ghost use Rattle.flip_finish.specs.Flipping.{IsShortened, Shortens, slot_d2};
ghost use Rattle.flip_finish.specs.Mesh.{IsMeshOf, IsWhole, IsWithin};
ghost use Rattle.flip_finish.specs.Winners.{AreWinners};
ghost use Rattle.flip_claims.specs.Rounds.{AreRounds, AreShortening, IsRound};

use crate::near::{around, triangles_of};
use crate::team::claimed_words;
use crate::winners::{all_slots, flip_all, holding, shortening};
use exact_predicates::Points;
use flip_finish::Mesh;
use mwt_base::{Gate, NoMemory};
use std::alloc::Global;
use std::thread::Threads;

// The winners of the mesh, for which so many threads have claimed the triangles of the slots that shorten.
fn winners_of<R: Threads + Sync, G: Gate>(
    rt: &R,
    alloc: Global,
    points: &Points,
    mesh: &Mesh,
    slots: &[u32],
    workers: u32,
    gate: &G,
) -> Result<Vec<u32>, NoMemory>
    requires some { 0 < workers }
    requires few { workers ≤ most_workers }
    requires shortening { AreShortening points.now.points mesh.now slots.now }
    requires mesh { IsWhole mesh.now × (length mesh.now.slots < 2 ^ 32) }
    ensures { IfOk result (λ winners. AreWinners points.now.points mesh.now winners.items) }
{
    let words = claimed_words(rt, alloc, points, mesh, slots, workers, gate)?;
    let winners = holding(alloc, mesh, &words, slots)?;
    Ok(winners)
}

// All slots that shorten, ascending.
fn all_shortening(alloc: Global, points: &Points, mesh: &Mesh) -> Result<Vec<u32>, NoMemory>
    requires { All (IsWithin points.now.points) mesh.now.tris }
    ensures shortening { IfOk result (λ slots. AreShortening points.now.points mesh.now slots.items) }
    ensures mesh { IsWhole mesh.now × (length mesh.now.slots < 2 ^ 32) }
{
    let all = all_slots(alloc, mesh)?;
    let slots = shortening(alloc, points, mesh, &all)?;
    Ok(slots)
}

/// One round of flips. So many threads, from 1 to 64, claim the triangles of the slots that shorten, which are
/// dealt to them in turn. Then the winners are flipped, in ascending order: the slots that shorten and share
/// no triangle with a smaller slot that shortens. Answers how many they are: 0 exactly where no slot shortens.
/// The gate is passed with Begin first, with Edge before each slot is claimed, and with End last. `NoMemory`
/// is the only error, and leaves the mesh as it was.
pub fn round<R: Threads + Sync, G: Gate>(
    rt: &R,
    alloc: Global,
    points: &Points,
    mesh: &mut Mesh,
    workers: u32,
    gate: &G,
) -> Result<u32, NoMemory>
    requires some { 0 < workers }
    requires few { workers ≤ most_workers }
    requires within { All (IsWithin points.now.points) mesh.old.tris }
    ensures winners { IfOk result (λ count. (winners : List ℕ) × (count ≡ length winners)
        × IsRound points.now.points mesh.old winners mesh.new) }
    ensures none { IfOk result (λ count. (count ≡ 0) ↔ ((slot : ℕ) → ¬ Shortens points.now.points mesh.old slot)) }
    ensures shortened { IsShortened points.now.points mesh.old mesh.new }
    ensures whole { IsWhole mesh.new }
    ensures falls { IfOk result (λ count. sum_by (slot_d2 points.now.points) mesh.new.slots + count
        ≤ sum_by (slot_d2 points.now.points) mesh.old.slots) }
    ensures same { OnErr result (mesh.new ≡ mesh.old) }
{
    let slots = all_shortening(alloc, points, mesh)?;
    let winners = winners_of(rt, alloc, points, mesh, &slots, workers, gate)?;
    flip_all(points, mesh, &winners);
    Ok(winners.len() as u32)
}

// One round over the slots that shorten, and those that shorten after it, which are looked for near the flips.
fn next_round<R: Threads + Sync, G: Gate>(
    rt: &R,
    alloc: Global,
    points: &Points,
    mesh: &mut Mesh,
    slots: &[u32],
    workers: u32,
    gate: &G,
) -> Result<Vec<u32>, NoMemory>
    requires some { 0 < workers }
    requires few { workers ≤ most_workers }
    requires within { All (IsWithin points.now.points) mesh.old.tris }
    requires shortening { AreShortening points.now.points mesh.old slots.now }
    requires mesh { IsWhole mesh.old × (length mesh.old.slots < 2 ^ 32) }
    ensures round { OnOk result ((winners : List ℕ) × IsRound points.now.points mesh.old winners mesh.new) }
    ensures shortening { IfOk result (λ near. AreShortening points.now.points mesh.new near.items) }
    ensures shortened { IsShortened points.now.points mesh.old mesh.new }
    ensures whole { IsWhole mesh.new }
    ensures falls { OnOk result (0 < length slots.now →
        sum_by (slot_d2 points.now.points) mesh.new.slots < sum_by (slot_d2 points.now.points) mesh.old.slots) }
{
    let winners = winners_of(rt, alloc, points, mesh, slots, workers, gate)?;
    let triangles = triangles_of(alloc, mesh, &winners)?;
    flip_all(points, mesh, &winners);
    let near = around(alloc, mesh, slots, &triangles)?;
    let slots = shortening(alloc, points, mesh, &near)?;
    Ok(slots)
}

// A thread is started for each so many slots of a round: a claim takes less than a start.
const SLOTS_FOR_A_THREAD: usize = 8_192;

// How many of the workers claim the triangles of so many slots.
fn team_size(slots: usize, workers: u32) -> u32
    requires { 0 < workers }
    ensures some { 0 < result }
    ensures few { result ≤ workers }
{
    let wanted = slots / SLOTS_FOR_A_THREAD + 1;
    wanted.min(workers as usize) as u32
}

/// Shortens a triangulation by rounds of flips until no flip makes it shorter. So many workers, from 1 to 64,
/// are at hand; a round starts a thread for each 8,192 slots that shorten, up to these. What comes of it does
/// not depend on them. `NoMemory` is the only error; the mesh may have been shortened by then.
pub fn shorten_claimed<R: Threads + Sync, G: Gate>(
    rt: &R,
    alloc: Global,
    points: &Points,
    mesh: &mut Mesh,
    workers: u32,
    gate: &G,
) -> Result<(), NoMemory>
    requires some { 0 < workers }
    requires few { workers ≤ most_workers }
    requires within { All (IsWithin points.now.points) mesh.old.tris }
    ensures shortened { IsShortened points.now.points mesh.old mesh.new }
    ensures rounds { OnOk result ((rounds : List (List ℕ)) × AreRounds points.now.points mesh.old rounds mesh.new) }
    ensures none { OnOk result ((slot : ℕ) → ¬ Shortens points.now.points mesh.new slot) }
    ensures minimal { OnOk result ((hull : List ℕ) → IsMeshOf points.now.points hull mesh.new →
        IsFlipMinimal points.now.points hull mesh.new.tris) }
{
    let mut slots = all_shortening(alloc, points, mesh)?;
    'rounds: while !slots.is_empty() {
        let team = team_size(slots.len(), workers);
        slots = next_round(rt, alloc, points, mesh, &slots, team, gate)?;
    }
    Ok(())
}
