// The laws of the crate, as contracts of functions that do nothing.
ghost use Rattle.diamond_theorem.specs.Laws.{DiamondsAreInDiscs, DiscsAreConvex, FansFlip, SleevesFlip, StepsAreLong, StepsAreLongerThanMiddle, StepsAreLow, StepsAreSeenObtuse, StepsGoOn, StepsGoRound, WalksAreSleeves, WalksCrossOnce, WalksExist, WalksGoRound};

/// The laws of the disc over an edge, which has the edge for its diameter. The diamond of the edge lies
/// in it, and it is convex. It does nothing: its contract says them.
pub fn disc_laws()
    ensures diamond { DiamondsAreInDiscs }
    ensures convex { DiscsAreConvex }
{}

/// The laws of the walk from an edge to a point of its diamond. From each step it goes on by exactly one
/// of the two other sides of the triangle there. Where a point lies in the left diamond of a side of a
/// triangle there is a walk, which ends at the first corner in the disc over the side. A walk crosses no
/// triangle twice, and each of its steps goes round that corner. It does nothing: its contract says them.
pub fn walk_laws()
    ensures goes_on { StepsGoOn }
    ensures exists { WalksExist }
    ensures once { WalksCrossOnce }
    ensures round { WalksGoRound }
{}

/// The laws of single steps of a walk. One with no end in the disc goes round each point of the disc to
/// its left. It is seen from there at an obtuse angle, so it is longer than the point is far from its
/// ends. It is low over the edge: its ends lie beside those of the edge. It does nothing: its contract
/// says them.
pub fn step_laws()
    ensures round { StepsGoRound }
    ensures obtuse { StepsAreSeenObtuse }
    ensures low { StepsAreLow }
{}

/// The laws of how long steps are. One with no end in the disc is longer than 3/5 of the edge, and than
/// the way from each of its ends to the middle of the edge. It does nothing: its contract says them.
pub fn length_laws()
    ensures long { StepsAreLong }
    ensures longer_than_middle { StepsAreLongerThanMiddle }
{}

/// The laws of flips in a sleeve, which the triangles of a walk are. A fan at a point, of points that are
/// not farther from the middle of the edge, has an inner edge that can be flipped; so at the farthest
/// corner of a sleeve a step can be. It does nothing: its contract says them.
pub fn sleeve_laws()
    ensures walk { WalksAreSleeves }
    ensures fan { FansFlip }
    ensures flip { SleevesFlip }
{}
