// The law of descendants.
ghost use Rattle.flip_claims.specs.Descent.{OneDescendant};

/// The law that a triangulation has one descendant: the list of triangles that rounds of claimed flips
/// lead to, whatever the number of workers and whatever their order. It does nothing: its contract says
/// so.
pub fn one_descendant_law()
    ensures { OneDescendant }
{}
