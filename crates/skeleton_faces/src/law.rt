// The law that there is one list of faces.
ghost use Rattle.skeleton_faces.specs.Uniqueness.{OneFaceList};

/// The law that edges have one list of faces: two lists that are the faces of the same edges between
/// the same points are equal. So the faces of a report are a function of its points and its skeleton.
/// It does nothing: its contract says so.
pub fn unique_faces_law()
    ensures { OneFaceList }
{}
