// The law that there is one first triangulation.
ghost use Rattle.hull_sweep.specs.First.{OneFirst};

/// The law that a set of points has one first triangulation: two lists of triangles in ascending order
/// that follow the rule of the sweep are equal, whatever their hulls. It does nothing: its contract says so.
pub fn one_first_law()
    ensures { OneFirst }
{}
