// The slots of a triangulation, and its triangles with the slots of their sides.
ghost use Rattle.std.specs.Prelude.{◌≡◌, ◌≢◌, ◌+◌, ◌*◌, ◌^◌, ◌<◌, ◌≤◌, ℕ, length, map, zip, AllPairs, IfOk, MatchOption};
ghost use Rattle.std.specs.Option.{ForSome};
ghost use Rattle.flip_finish.specs.Face.{Fits, IsAttached, face_tris};
ghost use Rattle.flip_finish.specs.Slotted.{AreSlots, AreSlotsOf, IsMet, slot_of};

use crate::face::Face;
use crate::halves::{Half, Halves, sort_by_edge};
use crate::slot::Slot;
use exact_predicates::Tri;
use mwt_base::NoMemory;
use std::alloc::{AllocError, Global};

// The slots in ascending order of their edges. Room is made for so many.
pub fn slots_of(
    alloc: Global,
    room: usize,
    hull: &[u32],
    tris: &[Tri],
) -> Result<Vec<Slot>, NoMemory>
    requires some { 2 ≤ length hull.now }
    requires distinct { AllPairs (λ u v. u ≢ v) hull.now }
    requires few { 3 * length tris.now + length hull.now < 2 ^ 32 }
    requires met { (x y : ℕ) → x ≢ y → IsMet hull.now tris.now x y }
    ensures { IfOk result (λ slots. AreSlots hull.now tris.now slots.items) }
{
    let Halves { mut ups, mut downs } = Halves::of(alloc, room, hull, tris)?;
    sort_by_edge(&mut ups)?;
    sort_by_edge(&mut downs)?;
    let slots = joined(alloc, &ups, &downs)?;
    Ok(slots)
}

// The slots of halves whose edges are the same, place by place.
fn joined(alloc: Global, ups: &[Half], downs: &[Half]) -> Result<Vec<Slot>, AllocError>
    ensures { IfOk result (λ slots. slots.items ≡ map slot_of (zip ups.now downs.now)) }
{
    ups.iter()
        .zip(downs)
        .map(|(up, down)| Slot {
            edge: up.edge,
            left: up.face,
            right: down.face,
        })
        .collect(alloc)
}

// The triangles with the slots of their sides.
pub fn attached(alloc: Global, tris: &[Tri], slots: &[Slot]) -> Result<Vec<Face>, NoMemory>
    requires few { length tris.now < 2 ^ 32 }
    requires slots { AreSlotsOf tris.now slots.now }
    ensures fits { IfOk result (λ faces. Fits faces.items slots.now) }
    ensures same { IfOk result (λ faces. face_tris faces.items ≡ tris.now) }
{
    let mut faces = unattached(alloc, tris)?;
    attach_all(&mut faces, slots);
    Ok(faces)
}

// The triangles, with slots still to come.
fn unattached(alloc: Global, tris: &[Tri]) -> Result<Vec<Face>, AllocError>
    ensures { IfOk result (λ faces. faces.items ≡ map (λ t. record { tri = t; ab = 0; bc = 0; ca = 0 }) tris.now) }
{
    tris.iter()
        .map(|tri| Face {
            tri: *tri,
            ab: 0,
            bc: 0,
            ca: 0,
        })
        .collect(alloc)
}

// Gives all sides their slots.
fn attach_all(faces: &mut [Face], slots: &[Slot])
    requires few { length faces.old < 2 ^ 32 }
    requires slots { AreSlotsOf (face_tris faces.old) slots.now }
    ensures fits { Fits faces.new slots.now }
    ensures same { face_tris faces.new ≡ face_tris faces.old }
{
    for (p, slot) in slots.iter().enumerate() {
        attach(faces, slot.left, slot.edge.a, p as u32);
        attach(faces, slot.right, slot.edge.b, p as u32);
    }
}

// Gives the side of the triangle `t` that begins at `u` the slot `p`, if there is a triangle.
fn attach(faces: &mut [Face], t: Option<u32>, u: u32, p: u32)
    requires { ForSome t (λ t. t < length faces.old) }
    ensures { MatchOption t (faces.new ≡ faces.old) (λ t. IsAttached faces.old faces.new t u p) }
{
    if let Some(t) = t {
        faces[t as usize].set_slot(u, p);
    }
}
