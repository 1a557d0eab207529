// A triangle that knows the slots of its sides.
ghost use Rattle.std.specs.Prelude.{◌≡◌, ◌≢◌, IfOk, map};

use exact_predicates::Tri;
use std::alloc::{AllocError, Global};

// A triangle, with the slots of its sides from `a` to `b`, from `b` to `c` and from `c` to `a`.
#[derive(Clone, Copy)]
pub struct Face {
    pub tri: Tri,
    pub ab: u32,
    pub bc: u32,
    pub ca: u32,
}

// A face as seen from its side from `u` to `v`, across from `w`: its corners, and the slots of the
// sides `uv`, `vw` and `wu`.
#[derive(Clone, Copy)]
pub struct Seen {
    pub u: u32,
    pub v: u32,
    pub w: u32,
    pub uv: u32,
    pub vw: u32,
    pub wu: u32,
}

impl Face {
    ghost use Rattle.exact_predicates.specs.Triangulation.{IsCorner};
    ghost use Rattle.flip_finish.specs.Face.{HasSides, with_slot};

    // The face with these corners and slots.
    pub fn of(seen: Seen) -> Face
        requires uv { seen.u ≢ seen.v }
        requires vw { seen.v ≢ seen.w }
        requires wu { seen.w ≢ seen.u }
        ensures { HasSides result seen.u seen.v seen.w seen.uv seen.vw seen.wu }
    {
        let Seen {
            u,
            v,
            w,
            uv,
            vw,
            wu,
        } = seen;
        if u < v && u < w {
            let tri = Tri { a: u, b: v, c: w };
            Face {
                tri,
                ab: uv,
                bc: vw,
                ca: wu,
            }
        } else if v < w {
            let tri = Tri { a: v, b: w, c: u };
            Face {
                tri,
                ab: vw,
                bc: wu,
                ca: uv,
            }
        } else {
            let tri = Tri { a: w, b: u, c: v };
            Face {
                tri,
                ab: wu,
                bc: uv,
                ca: vw,
            }
        }
    }

    // The face as seen from its side that begins at the corner `u`.
    pub fn seen_from(&self, u: u32) -> Seen
        requires { IsCorner self.now.tri u }
        ensures sides { HasSides self.now result.u result.v result.w result.uv result.vw result.wu }
        ensures from { result.u ≡ u }
    {
        let Tri { a, b, c } = self.tri;
        if u == a {
            Seen {
                u: a,
                v: b,
                w: c,
                uv: self.ab,
                vw: self.bc,
                wu: self.ca,
            }
        } else if u == b {
            Seen {
                u: b,
                v: c,
                w: a,
                uv: self.bc,
                vw: self.ca,
                wu: self.ab,
            }
        } else {
            Seen {
                u: c,
                v: a,
                w: b,
                uv: self.ca,
                vw: self.ab,
                wu: self.bc,
            }
        }
    }

    // Gives the side that begins at the corner `u` this slot.
    pub fn set_slot(&mut self, u: u32, slot: u32)
        ensures { self.new ≡ with_slot self.old u slot }
    {
        if u == self.tri.a {
            self.ab = slot;
        } else if u == self.tri.b {
            self.bc = slot;
        } else {
            self.ca = slot;
        }
    }
}

// The triangles of faces.
pub fn tris_of(alloc: Global, faces: &[Face]) -> Result<Vec<Tri>, AllocError>
    ensures { IfOk result (λ tris. tris.items ≡ map (λ f. f.tri) faces.now) }
{
    faces.iter().map(|face| face.tri).collect(alloc)
}
