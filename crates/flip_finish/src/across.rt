// The two triangles on an edge, and their flip.
ghost use Rattle.std.specs.Prelude.{◌≡◌, ◌≢◌, ◌<◌, length, MatchOption};
ghost use Rattle.flip_finish.specs.Face.{Fits};

use crate::face::{Face, Seen};
use crate::slot::Slot;

// The two triangles on the edge of a slot: `i` on the left and `j` on the right, both as seen from
// this edge.
#[derive(Clone, Copy)]
pub struct Across {
    pub i: u32,
    pub j: u32,
    pub left: Seen,
    pub right: Seen,
}

impl Across {
    ghost use Rattle.flip_finish.specs.Across.{IsAcross, IsExchanged, IsOuter};

    // Those on the slot's edge; none where one of them is missing.
    pub fn of(faces: &[Face], slots: &[Slot], slot: u32) -> Option<Across>
        requires in_slots { slot < length slots.now }
        requires fits { Fits faces.now slots.now }
        ensures { MatchOption result (IsOuter slots.now slot) (IsAcross faces.now slot) }
    {
        let it = slots[slot as usize];
        let i = it.left?;
        let j = it.right?;
        Some(Across {
            i,
            j,
            left: faces[i as usize].seen_from(it.edge.a),
            right: faces[j as usize].seen_from(it.edge.b),
        })
    }

    // Puts the triangles on the other diagonal in their place.
    pub fn flip(&self, faces: &mut [Face], slots: &mut [Slot])
        requires across { IsAcross faces.old self.now.left.uv self.now }
        requires fits { Fits faces.old slots.old }
        requires apart { self.now.left.w ≢ self.now.right.w }
        ensures { IsExchanged faces.old faces.new slots.old slots.new self.now }
    {
        let Across { i, j, left, right } = *self;
        let Seen {
            u,
            v,
            w: a,
            uv: slot,
            vw: va,
            wu: au,
        } = left;
        let Seen {
            w: b,
            vw: ub,
            wu: bv,
            ..
        } = right;
        faces[i as usize] = Face::of(Seen {
            u,
            v: b,
            w: a,
            uv: ub,
            vw: slot,
            wu: au,
        });
        faces[j as usize] = Face::of(Seen {
            u: v,
            v: a,
            w: b,
            uv: va,
            vw: slot,
            wu: bv,
        });
        slots[slot as usize] = Slot::between(b, a, i, j);
        slots[ub as usize].set_left(u, b, i);
        slots[va as usize].set_left(v, a, j);
    }
}
