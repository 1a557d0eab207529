// The mesh, and the flip of one edge.
ghost use Rattle.std.specs.Prelude.{◌≡◌, ◌↔◌, ◌<◌, ℕ, List, All, AllPairs, Contains, IsTrue, IsNone, IfOk, IfSome, MatchOption, IsPermutation, IsSorted, length, slice_get, Some, sum_by};
ghost use Rattle.exact_predicates.specs.declared.point.Point.{Point};
ghost use Rattle.exact_predicates.specs.Hull.{IsHull};
ghost use Rattle.exact_predicates.specs.Triangulation.{IsTriangulation, tri_cmp};

use crate::across::Across;
use crate::build::{attached, slots_of};
use crate::face::{Face, tris_of};
use crate::slot::Slot;
use exact_predicates::{Edge, Hull, Points, Tris, crosses, d2};
use mwt_base::NoMemory;
use std::alloc::Global;
use std::marker::Model;

/// The triangles of a triangulation, in any order, with a slot for each edge.
/// After a flip the new triangles and the new edge stand where the old ones stood.
#[derive(Drop)]
pub struct Mesh {
    faces: Vec<Face>,
    slots: Vec<Slot>,
}

impl Model for Mesh {
    ghost use Rattle.flip_finish.specs.Mesh.{Parts};

    ghost Value = { Parts };

    ghost use Rattle.flip_finish.specs.Face.{Fits, face_tris};

    ghost view = { λ m. record { tris = face_tris m.faces.items; slots = m.slots.items } };

    ghost invariant = { λ m. Fits m.faces.items m.slots.items };
}

impl Mesh {
    ghost use Rattle.flip_finish.specs.Flipping.{IsFlipped, IsLowered, IsShortened, Shortens, slot_d2};
    ghost use Rattle.flip_finish.specs.Mesh.{IsMeshOf, IsUpTo, IsWhole, IsWithin, slot_edges};
    ghost use Rattle.flip_finish.specs.Winners.{HasPair, HasTriangle, IsOnHull, LacksTriangle};

    /// The mesh of a triangulation. Its triangles are in the order of the list, its slots in ascending
    /// order of their edges. For n points it takes time n log n. `NoMemory` is the only error.
    pub fn from_tris(
        alloc: Global,
        points: &Points,
        hull: &Hull,
        tris: &Tris,
    ) -> Result<Mesh, NoMemory>
        requires hull { IsHull points.now.points hull.now }
        requires tris { IsTriangulation points.now.points hull.now tris.now }
        ensures same { IfOk result (λ mesh. mesh.tris ≡ tris.now) }
        ensures ascending { IfOk result (λ mesh. AllPairs (λ s t. IsUpTo s.edge t.edge) mesh.slots) }
        ensures mesh { IfOk result (λ mesh. IsMeshOf points.now.points hull.now mesh) }
        ensures within { IfOk result (λ mesh. All (IsWithin points.now.points) mesh.tris) }
        ensures whole { IfOk result (λ mesh. IsWhole mesh) }
    {
        // A triangulation of n points has fewer than 3n edges.
        let room = 3 * points.len() as usize;
        let slots = slots_of(alloc, room, hull.as_slice(), tris.as_slice())?;
        let faces = attached(alloc, tris.as_slice(), &slots)?;
        Ok(Mesh { faces, slots })
    }

    /// How many slots there are.
    pub fn slots(&self) -> u32
        ensures value { result ≡ length self.now.slots }
        ensures whole { IsWhole self.now }
    {
        self.slots.len() as u32
    }

    /// The edge of a slot.
    pub fn edge(&self, slot: u32) -> Edge
        requires { slot < length self.now.slots }
        ensures { slice_get (slot_edges self.now.slots) slot ≡ Some result }
    {
        self.slots[slot as usize].edge
    }

    /// How many triangles there are.
    pub fn count(&self) -> u32
        ensures { result ≡ length self.now.tris }
    {
        self.faces.len() as u32
    }

    /// The numbers of the slot's two triangles, the left one first. None exactly where the edge is one of
    /// the hull.
    pub fn pair(&self, slot: u32) -> Option<(u32, u32)>
        requires { slot < length self.now.slots }
        ensures pair { MatchOption result (LacksTriangle self.now slot) (λ p. HasPair self.now slot p.0 p.1) }
        ensures below { IfSome result (λ p. (p.0 < length self.now.tris) × (p.1 < length self.now.tris)) }
        ensures hull { (ps : List Point) (hull : List ℕ) → IsMeshOf ps hull self.now →
            (IsNone result ↔ IsOnHull hull self.now slot) }
    {
        let it = self.slots[slot as usize];
        let left = it.left?;
        let right = it.right?;
        Some((left, right))
    }

    /// The slots of the triangle's three sides.
    pub fn sides(&self, t: u32) -> [u32; 3]
        requires { t < length self.now.tris }
        ensures { (slot : ℕ) → Contains result slot ↔ HasTriangle self.now slot t }
    {
        let face = self.faces[t as usize];
        [face.ab, face.bc, face.ca]
    }

    /// Whether a flip of the slot's edge makes it strictly shorter: it has triangles on both sides,
    /// their quadrilateral is strictly convex, and the other diagonal is the shorter one. Exact, in
    /// constant time.
    pub fn shortens(&self, points: &Points, slot: u32) -> bool
        requires in_slots { slot < length self.now.slots }
        requires within { All (IsWithin points.now.points) self.now.tris }
        ensures { IsTrue result ↔ Shortens points.now.points self.now slot }
    {
        let Some(Across { left, right, .. }) = Across::of(&self.faces, &self.slots, slot) else {
            return false;
        };
        let (u, v) = (points.at(left.u), points.at(left.v));
        let (a, b) = (points.at(left.w), points.at(right.w));
        d2(a, b) < d2(u, v) && crosses(u, v, a, b)
    }

    /// Flips the slot's edge `uv`, which that shortens: the slot's edge becomes `ab`, and the two
    /// triangles become those on `ab`. All else stays. In constant time.
    pub fn flip(&mut self, points: &Points, slot: u32)
        requires shortens { Shortens points.now.points self.old slot }
        ensures flipped { IsFlipped points.now.points self.old self.new slot }
        ensures whole { IsWhole self.new }
        ensures shortened { IsShortened points.now.points self.old self.new }
        ensures lowered { IsLowered points.now.points self.old self.new }
        ensures falls { sum_by (slot_d2 points.now.points) self.new.slots < sum_by (slot_d2 points.now.points) self.old.slots }
    {
        let Some(across) = Across::of(&self.faces, &self.slots, slot) else {
            unreachable!()
        };
        across.flip(&mut self.faces, &mut self.slots);
    }

    /// The triangles in ascending order. `NoMemory` is the only error.
    pub fn tris(&self, alloc: Global) -> Result<Tris, NoMemory>
        ensures same { IfOk result (λ tris. IsPermutation self.now.tris tris) }
        ensures ascending { IfOk result (λ tris. IsSorted tri_cmp tris) }
    {
        let mut tris = tris_of(alloc, &self.faces)?;
        tris.sort_unstable();
        Ok(Tris::of(tris))
    }
}
