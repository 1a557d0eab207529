// The slots near flips: those that may shorten after them.
ghost use Rattle.std.specs.Prelude.{ℕ, ◌<◌, length, All, Contains, IfOk};
ghost use Rattle.flip_finish.specs.Winners.{HasTriangle};
ghost use Rattle.flip_claims.specs.Rounds.{AreAround, AreNear, HasTwo};

use flip_finish::Mesh;
use mwt_base::NoMemory;
use std::alloc::Global;

// The triangles of the slots.
pub fn triangles_of(alloc: Global, mesh: &Mesh, slots: &[u32]) -> Result<Vec<u32>, NoMemory>
    requires { All (HasTwo mesh.now) slots.now }
    ensures in_mesh { IfOk result (λ triangles. All (λ t. t < length mesh.now.tris) triangles.items) }
    ensures all { IfOk result (λ triangles. (p t : ℕ) → Contains slots.now p → HasTriangle mesh.now p t →
        Contains triangles.items t) }
{
    let mut triangles = Vec::new(alloc);
    for slot in slots {
        let Some((left, right)) = mesh.pair(*slot) else {
            unreachable!()
        };
        triangles.push(left)?;
        triangles.push(right)?;
    }
    Ok(triangles)
}

// The slots, and those that have one of the triangles, in any order.
fn with_sides(
    alloc: Global,
    mesh: &Mesh,
    slots: &[u32],
    triangles: &[u32],
) -> Result<Vec<u32>, NoMemory>
    requires in_slots { All (λ p. p < length mesh.now.slots) slots.now }
    requires in_mesh { All (λ t. t < length mesh.now.tris) triangles.now }
    ensures { IfOk result (λ near. AreAround mesh.now slots.now triangles.now near.items) }
{
    let mut near = Vec::from_slice(alloc, slots)?;
    for t in triangles {
        let sides = mesh.sides(*t);
        near.extend_from_slice(sides.as_slice())?;
    }
    Ok(near)
}

// The slots, and those that have one of the triangles, ascending.
pub fn around(
    alloc: Global,
    mesh: &Mesh,
    slots: &[u32],
    triangles: &[u32],
) -> Result<Vec<u32>, NoMemory>
    requires in_slots { All (λ p. p < length mesh.now.slots) slots.now }
    requires in_mesh { All (λ t. t < length mesh.now.tris) triangles.now }
    ensures { IfOk result (λ near. AreNear mesh.now slots.now triangles.now near.items) }
{
    let mut near = with_sides(alloc, mesh, slots, triangles)?;
    near.sort_unstable();
    near.dedup();
    Ok(near)
}
