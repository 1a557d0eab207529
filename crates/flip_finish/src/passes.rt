// Flips until none makes the triangulation shorter.
ghost use Rattle.std.specs.Prelude.{ℕ, ◌<◌, List, All, sum_by};
ghost use Rattle.std.specs.Bool.{OnTrue, OnFalse};
ghost use Rattle.exact_predicates.specs.Flip.{IsFlipMinimal};
ghost use Rattle.flip_finish.specs.Flipping.{IsShortened, slot_d2};
ghost use Rattle.flip_finish.specs.Mesh.{IsMeshOf, IsWithin};

use crate::mesh::Mesh;
use exact_predicates::Points;

/// Shortens a triangulation by flips until no flip makes it shorter. It goes over the slots from the
/// first to the last; each edge that a flip makes strictly shorter is flipped, and the new edge stays
/// in the slot. Such passes are made until one changes nothing. Takes no memory.
pub fn shorten(points: &Points, mesh: &mut Mesh)
    requires { All (IsWithin points.now.points) mesh.old.tris }
    ensures shortened { IsShortened points.now.points mesh.old mesh.new }
    ensures minimal { (hull : List ℕ) → IsMeshOf points.now.points hull mesh.new →
        IsFlipMinimal points.now.points hull mesh.new.tris }
{
    while pass(points, mesh) {}
}

// One pass over the slots. Answers whether it flipped an edge. Where it did, the squared lengths have
// become less together.
fn pass(points: &Points, mesh: &mut Mesh) -> bool
    requires { All (IsWithin points.now.points) mesh.old.tris }
    ensures shortened { IsShortened points.now.points mesh.old mesh.new }
    ensures falls { OnTrue result
        (sum_by (slot_d2 points.now.points) mesh.new.slots < sum_by (slot_d2 points.now.points) mesh.old.slots) }
    ensures minimal { OnFalse result ((hull : List ℕ) → IsMeshOf points.now.points hull mesh.new →
        IsFlipMinimal points.now.points hull mesh.new.tris) }
{
    let mut flipped = false;
    for slot in 0..mesh.slots() {
        if mesh.shortens(points, slot) {
            mesh.flip(points, slot);
            flipped = true;
        }
    }
    flipped
}
