// The triangles chosen, and what the parts on the last sides of faces cost.
ghost use Rattle.std.specs.Prelude.{◌≡◌, ◌+◌, ◌*◌, ◌<◌, IfOk, OnOk, length};
ghost use Rattle.lmt_network.specs.Numbers.{IsNumberOf};
ghost use Rattle.face_optimum.specs.Chosen.{AddsPart, AreChosenUpto, IsLastSide};
ghost use Rattle.face_optimum.specs.Cuts.{AreCosts};
ghost use Rattle.face_optimum.specs.Sites.{IsSite, faces_of};

use crate::costs::Costs;
use crate::legs::legs;
use crate::number::number;
use crate::side_seats::side_number;
use crate::site::Site;
use exact_predicates::Tri;
use std::alloc::{AllocError, Global};

// The triangles chosen so far, and of each side, by its number, what the part on it costs.
#[derive(Drop)]
pub(crate) struct Chosen {
    pub(crate) tris: Vec<Tri>,
    pub(crate) root_costs: Vec<u64>,
}

impl<'a> Site<'a> {
    // Appends the triangles of the part that the edge cuts off; none where it is one of the skeleton.
    fn choose_part(&self, parts: &Costs, e: u32, tris: &mut Vec<Tri>) -> Result<(), AllocError>
        requires site { IsSite self.now }
        requires costs { AreCosts self.now.net.now self.now.flags.now self.now.skeleton.now (faces_of self.now)
            self.now.edge_seats.now self.now.tri_seats.now parts.now.costs.items parts.now.choices.items }
        requires e_in { e < length self.now.net.now.edges }
        ensures { OnOk result (AddsPart self.now parts.now.costs.items e tris.old.items tris.new.items) }
    {
        if self.off[e as usize] {
            let t = parts.choices[e as usize];
            tris.push(self.net.tri(t))?;
            let (x, y) = legs(self.net, t, e);
            self.choose_part(parts, x, tris)?;
            self.choose_part(parts, y, tris)?;
        }
        Ok(())
    }

    // The last side of a bounded face, and its edge.
    fn last_side(&self, f: u32) -> (u32, u32, u32)
        requires site { IsSite self.now }
        requires f_in { f < length (faces_of self.now) }
        ensures side { IsLastSide self.now f result.0 result.1 }
        ensures number { IsNumberOf self.now.net.now result.0 result.1 result.2 }
    {
        let face = self.rings.ring(f);
        let u = face[face.len() - 1];
        let v = face[0];
        (u, v, number(self.net, u, v))
    }

    // Chooses the triangles of a bounded face, and keeps what the part on its last side costs.
    fn choose_face(
        &self,
        parts: &Costs,
        f: u32,
        tris: &mut Vec<Tri>,
        root_costs: &mut [u64],
    ) -> Result<(), AllocError>
        requires site { IsSite self.now }
        requires costs { AreCosts self.now.net.now self.now.flags.now self.now.skeleton.now (faces_of self.now)
            self.now.edge_seats.now self.now.tri_seats.now parts.now.costs.items parts.now.choices.items }
        requires f_in { f < length (faces_of self.now) }
        requires chosen { AreChosenUpto self.now parts.now.costs.items f tris.old.items root_costs.old }
        ensures { OnOk result (AreChosenUpto self.now parts.now.costs.items (f + 1) tris.new.items root_costs.new) }
    {
        let (u, v, e) = self.last_side(f);
        let cut = self.cut_on(&parts.costs, e, u, v);
        tris.push(self.net.tri(cut.tri))?;
        let (x, y) = legs(self.net, cut.tri, e);
        self.choose_part(parts, x, tris)?;
        self.choose_part(parts, y, tris)?;
        root_costs[side_number(self.net, e, u, v)] = cut.sum;
        Ok(())
    }

    // Chooses the triangles of all bounded faces.
    pub(crate) fn choose(&self, alloc: Global, parts: &Costs) -> Result<Chosen, AllocError>
        requires site { IsSite self.now }
        requires costs { AreCosts self.now.net.now self.now.flags.now self.now.skeleton.now (faces_of self.now)
            self.now.edge_seats.now self.now.tri_seats.now parts.now.costs.items parts.now.choices.items }
        ensures { IfOk result (λ c. AreChosenUpto self.now parts.now.costs.items (length (faces_of self.now)) c.tris.items c.root_costs.items) }
    {
        let mut tris = Vec::new(alloc);
        let mut root_costs = Vec::from_elem(alloc, 0, 2 * self.net.edges() as usize)?;
        for f in 0..self.rings.len() {
            self.choose_face(parts, f, &mut tris, &mut root_costs)?;
        }
        Ok(Chosen { tris, root_costs })
    }
}
