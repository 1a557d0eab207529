// Faces, as a list of cycles of few places each.
ghost use Rattle.std.specs.Prelude.{◌≡◌, ◌^◌, ◌<◌, ◌≤◌, length, slice_index_or, []};

use std::marker::Model;

/// Faces of at most 128 places, each by the starts of its sides.
#[derive(Drop)]
pub(crate) struct Rings {
    pub(crate) rings: Vec<Vec<u32>>,
}

impl Model for Rings {
    ghost use Rattle.std.specs.Prelude.{List, ℕ, ◌<◌, ◌≤◌, ◌^◌, map, All, length};

    ghost Value = { List (List ℕ) };

    ghost view = { λ r. map (λ ring. ring.items) r.rings.items };

    ghost invariant = { λ r. (length r.rings.items < 2 ^ 32) × All (λ ring. length ring.items ≤ 128) r.rings.items };
}

impl Rings {
    /// How many faces there are.
    pub(crate) fn len(&self) -> u32
        ensures { result ≡ length self.now }
    {
        self.rings.len() as u32
    }

    /// The points of the places of a face, in order.
    pub(crate) fn ring(&self, f: u32) -> &[u32]
        requires { f < length self.now }
        ensures value { result.now ≡ slice_index_or self.now f [] }
        ensures few { length result.now ≤ 128 }
    {
        &self.rings[f as usize]
    }
}
