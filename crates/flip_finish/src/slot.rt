// The slot of an edge.
ghost use Rattle.std.specs.Prelude.{◌≡◌, ◌≢◌, Some};
ghost use Rattle.exact_predicates.specs.Candidates.{Joins};

use exact_predicates::Edge;

/// An edge of a mesh, with the numbers of the triangles on its two sides: on the left where one goes
/// from `edge.a` to `edge.b`, and on the right. Outside of the hull there is none.
#[derive(Clone, Copy)]
pub struct Slot {
    pub edge: Edge,
    pub left: Option<u32>,
    pub right: Option<u32>,
}

impl Slot {
    ghost use Rattle.flip_finish.specs.Slot.{IsSlotOf, with_left};

    // The slot of the edge `xy`, with the triangle `t` on the left where one goes from `x` to `y`, and
    // `o` on the right.
    pub(crate) fn between(x: u32, y: u32, t: u32, o: u32) -> Slot
        requires { x ≢ y }
        ensures { IsSlotOf result x y t o }
    {
        let edge = Edge::of(x, y);
        if x < y {
            Slot {
                edge,
                left: Some(t),
                right: Some(o),
            }
        } else {
            Slot {
                edge,
                left: Some(o),
                right: Some(t),
            }
        }
    }

    // Puts the triangle `t` on the left of the edge, where one goes from `x` to `y`.
    pub(crate) fn set_left(&mut self, x: u32, y: u32, t: u32)
        ensures { self.new ≡ with_left self.old x y t }
    {
        if x < y {
            self.left = Some(t);
        } else {
            self.right = Some(t);
        }
    }
}
