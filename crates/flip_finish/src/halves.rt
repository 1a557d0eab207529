// The directed sides of a triangulation.
ghost use Rattle.std.specs.Prelude.{◌≡◌, ◌≢◌, ◌<◌, ◌≤◌, ◌^◌, ℕ, List, [], ◌∷◌, ◌++◌, Option, length, AllPairs, IfOk, OnOk, IsPermutation};

use exact_predicates::{Edge, Tri, next_on_hull};
use mwt_base::NoMemory;
use std::alloc::{AllocError, Global};

// One side of an edge, with the number of the triangle there. Outside of the hull there is none.
#[derive(Clone, Copy)]
pub struct Half {
    pub edge: Edge,
    pub face: Option<u32>,
}

// The sides of edges: `ups` are those on the left of their edge, where one goes from its lesser end to
// its greater, and `downs` those on the right.
#[derive(Drop)]
pub struct Halves {
    pub ups: Vec<Half>,
    pub downs: Vec<Half>,
}

impl Halves {
    ghost use Rattle.flip_finish.specs.Halves.{AreSplit, all_sides};

    // The sides of all triangles, and the outer sides of the hull's pairs. Room is made for so many
    // ups and downs.
    pub fn of(alloc: Global, room: usize, hull: &[u32], tris: &[Tri]) -> Result<Halves, NoMemory>
        requires some { 2 ≤ length hull.now }
        requires distinct { AllPairs (λ u v. u ≢ v) hull.now }
        requires few { length tris.now < 2 ^ 32 }
        ensures { IfOk result (λ halves. AreSplit (all_sides hull.now tris.now) halves.ups.items halves.downs.items) }
    {
        let mut halves = Halves {
            ups: Vec::with_capacity(alloc, room)?,
            downs: Vec::with_capacity(alloc, room)?,
        };
        for (i, tri) in tris.iter().enumerate() {
            let face = Some(i as u32);
            halves.add(tri.a, tri.b, face)?;
            halves.add(tri.b, tri.c, face)?;
            halves.add(tri.c, tri.a, face)?;
        }
        for (k, &from) in hull.iter().enumerate() {
            let to = next_on_hull(hull, k);
            halves.add(to, from, None)?;
        }
        Ok(halves)
    }

    // Adds what is on the left where one goes from `x` to `y`.
    fn add(&mut self, x: u32, y: u32, face: Option<u32>) -> Result<(), AllocError>
        requires { x ≢ y }
        ensures { OnOk result ((sides : List ((ℕ × ℕ) × Option ℕ)) →
            AreSplit sides self.old.ups.items self.old.downs.items →
            AreSplit (sides ++ ((x, y), face) ∷ []) self.new.ups.items self.new.downs.items) }
    {
        let edge = Edge::of(x, y);
        if x < y {
            self.ups.push(Half { edge, face })?;
        } else {
            self.downs.push(Half { edge, face })?;
        }
        Ok(())
    }
}

ghost use Rattle.flip_finish.specs.Mesh.{IsUpTo};

// Sorts halves by their edges.
pub fn sort_by_edge(halves: &mut Vec<Half>) -> Result<(), AllocError>
    ensures permutation { IsPermutation halves.old.items halves.new.items }
    ensures ascending { OnOk result (AllPairs (λ h k. IsUpTo h.edge k.edge) halves.new.items) }
{
    halves.sort_by_key(|half| half.edge)?;
    Ok(())
}
