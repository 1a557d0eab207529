// The faces of a list of edges, as a list of cycles.
ghost use Rattle.std.specs.Prelude.{◌≡◌, ◌+◌, ◌<◌, ◌≤◌, [], length, slice_index, slice_index_or, slice_range};

use std::marker::Model;

/// The faces of a list of edges: cycles of sides, each with the starts of its sides in their order.
#[derive(Drop)]
pub struct Faces {
    // The starts of all sides, face after face.
    pub(crate) starts: Vec<u32>,
    // Where each face begins in `starts`, and where the last one ends.
    pub(crate) bounds: Vec<usize>,
}

impl Model for Faces {
    ghost use Rattle.std.specs.Prelude.{List, ℕ};

    ghost Value = { List (List ℕ) };

    ghost use Rattle.skeleton_faces.specs.Tables.{cycles_of, HaveBounds};

    ghost view = { cycles_of };

    ghost invariant = { HaveBounds };
}

impl Faces {
    /// How many faces there are.
    pub fn len(&self) -> u32
        ensures { result ≡ length self.now }
    {
        (self.bounds.len() - 1) as u32
    }

    /// The starts of the face's sides in their order.
    pub fn cycle(&self, i: u32) -> &[u32]
        requires { i < length self.now }
        ensures { result.now ≡ slice_index_or self.now i [] }
    {
        piece(&self.starts, &self.bounds, i as usize)
    }
}

// The items from one bound to the next.
fn piece<'a>(items: &'a [u32], bounds: &[usize], i: usize) -> &'a [u32]
    requires i_in { i + 1 < length bounds.now }
    requires rising { slice_index bounds.now i ≤ slice_index bounds.now (i + 1) }
    requires within { slice_index bounds.now (i + 1) ≤ length items.now }
    ensures { result.now ≡ slice_range items.now (slice_index bounds.now i) (slice_index bounds.now (i + 1)) }
{
    &items[bounds[i]..bounds[i + 1]]
}
