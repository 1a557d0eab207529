// The slots that shorten, the winners among them, and their flips.
ghost use Rattle.std.specs.Prelude.{◌≡◌, ◌⊎◌, ◌↔◌, ℕ, ◌+◌, ◌^◌, ◌<◌, ◌≤◌, length, All, AllPairs, Contains, IfOk, IsTrue, sum_by};
ghost use Rattle.flip_finish.specs.Flipping.{IsShortened, Shortens, slot_d2};
ghost use Rattle.flip_finish.specs.Mesh.{IsWhole, IsWithin};
ghost use Rattle.flip_finish.specs.Winners.{AreWinners};
ghost use Rattle.flip_claims.specs.Rounds.{AreFlipped, ArePicked, HasTwo, HoldsBoth, IsTouched};

use crate::close::ClaimWords;
use exact_predicates::Points;
use flip_finish::Mesh;
use mwt_base::NoMemory;
use std::alloc::Global;

// The numbers of all slots.
pub fn all_slots(alloc: Global, mesh: &Mesh) -> Result<Vec<u32>, NoMemory>
    ensures in_slots { IfOk result (λ all. All (λ s. s < length mesh.now.slots) all.items) }
    ensures ascending { IfOk result (λ all. AllPairs (λ p q. p < q) all.items) }
    ensures all { IfOk result (λ all. (s : ℕ) → s < length mesh.now.slots → Contains all.items s) }
    ensures mesh { IsWhole mesh.now × (length mesh.now.slots < 2 ^ 32) }
{
    let count = mesh.slots();
    let mut all = Vec::with_capacity(alloc, count as usize)?;
    for slot in 0..count {
        all.push(slot)?;
    }
    Ok(all)
}

// Those of the slots that shorten.
pub fn shortening(
    alloc: Global,
    points: &Points,
    mesh: &Mesh,
    slots: &[u32],
) -> Result<Vec<u32>, NoMemory>
    requires within { All (IsWithin points.now.points) mesh.now.tris }
    requires in_slots { All (λ s. s < length mesh.now.slots) slots.now }
    requires ascending { AllPairs (λ p q. p < q) slots.now }
    ensures { IfOk result (λ found. ArePicked (Shortens points.now.points mesh.now) slots.now found.items) }
{
    let mut found = Vec::new(alloc);
    for slot in slots {
        if mesh.shortens(points, *slot) {
            found.push(*slot)?;
        }
    }
    Ok(found)
}

// Whether the words of both triangles of the slot are its own number.
fn holds_both(mesh: &Mesh, words: &ClaimWords, slot: u32) -> bool
    requires two { HasTwo mesh.now slot }
    requires one_each { length words.now ≡ length mesh.now.tris }
    ensures { IsTrue result ↔ HoldsBoth mesh.now words.now slot }
{
    let Some((left, right)) = mesh.pair(slot) else {
        unreachable!()
    };
    words.get(left) == slot as u64 && words.get(right) == slot as u64
}

// Those of the slots that hold both of their triangles.
pub fn holding(
    alloc: Global,
    mesh: &Mesh,
    words: &ClaimWords,
    slots: &[u32],
) -> Result<Vec<u32>, NoMemory>
    requires two { All (HasTwo mesh.now) slots.now }
    requires ascending { AllPairs (λ p q. p < q) slots.now }
    requires one_each { length words.now ≡ length mesh.now.tris }
    ensures { IfOk result (λ held. ArePicked (HoldsBoth mesh.now words.now) slots.now held.items) }
{
    let mut held = Vec::new(alloc);
    for slot in slots {
        if holds_both(mesh, words, *slot) {
            held.push(*slot)?;
        }
    }
    Ok(held)
}

// Flips the edges of the slots, which are the winners.
pub fn flip_all(points: &Points, mesh: &mut Mesh, winners: &[u32])
    requires { AreWinners points.now.points mesh.old winners.now }
    ensures flipped { AreFlipped points.now.points mesh.old winners.now mesh.new }
    ensures shortened { IsShortened points.now.points mesh.old mesh.new }
    ensures whole { IsWhole mesh.old → IsWhole mesh.new }
    ensures count { length mesh.new.tris ≡ length mesh.old.tris }
    ensures back { (p : ℕ) → Shortens points.now.points mesh.new p →
        IsTouched mesh.old mesh.new winners.now p ⊎ Shortens points.now.points mesh.old p }
    ensures falls { sum_by (slot_d2 points.now.points) mesh.new.slots + length winners.now
        ≤ sum_by (slot_d2 points.now.points) mesh.old.slots }
{
    for slot in winners {
        mesh.flip(points, *slot);
    }
}
