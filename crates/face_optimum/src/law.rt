// The law that the rule on faces gives one result.
ghost use Rattle.face_optimum.specs.OneOptimum.{OneFaceOptimum};

/// The law that two results by the rule on the same faces are the same triangles and the same prices,
/// where the skeleton decomposes. So the triangles, the prices and the anchors that `solve_faces` answers
/// are functions of the points, the hull, the live edges, the skeleton and its faces. It does nothing: its
/// contract says so.
pub fn face_law()
    ensures { OneFaceOptimum }
{}
