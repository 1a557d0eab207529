// Where a seat has found supports, so that it looks there first.
ghost use Rattle.std.specs.Prelude.{◌≡◌, ◌<◌, length, IfSome};
ghost use Rattle.lmt_network.specs.Numbers.{IsOnLeft, IsOnRight};

use crate::answer::Found;
use crate::handles::Seat;
use lmt_network::Network;
use mwt_base::NoMemory;
use std::alloc::Global;

// The place of a triangle among those on the left of an edge, and of one among those on its right.
#[derive(Clone, Copy, Drop)]
pub(crate) struct Places {
    left: u32,
    right: u32,
}

// The place of the triangle in the ascending row.
fn place_of(row: &[u32], t: u32) -> u32 {
    let place = row.binary_search(&t).unwrap_or(0);
    place.min(u32::MAX as usize) as u32
}

impl Seat {
    /// From now on the seat keeps where it finds the support of each edge of the network, and `examine`
    /// begins there.
    pub fn keep_supports(&mut self, alloc: Global, net: &Network) -> Result<(), NoMemory>
        ensures { self.new ≡ self.old }
    {
        let first = Places { left: 0, right: 0 };
        self.supports = Vec::from_elem(alloc, first, net.edges() as usize)?;
        Ok(())
    }

    // The triangles at which the support of the edge was found last.
    pub(crate) fn last_pair(&self, net: &Network, e: u32) -> Option<(u32, u32)>
        requires inside { e < length net.now.edges }
        ensures { IfSome result (λ pair. IsOnLeft net.now e pair.0 × IsOnRight net.now e pair.1) }
    {
        let places = self.supports.get(e as usize)?;
        let (left, right) = (places.left as usize, places.right as usize);
        let lefts = net.left(e);
        let rights = net.right(e);
        if left < lefts.len() && right < rights.len() {
            return Some((lefts[left], rights[right]));
        }
        None
    }

    // Keeps where the support of the edge was found, if it was.
    pub(crate) fn keep(&mut self, net: &Network, e: u32, found: Found)
        requires inside { e < length net.now.edges }
        ensures { self.new ≡ self.old }
    {
        if let Found::Supported(l, r) = found {
            if let Some(places) = self.supports.get_mut(e as usize) {
                places.left = place_of(net.left(e), l);
                places.right = place_of(net.right(e), r);
            }
        }
    }
}
