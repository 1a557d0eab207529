// The laws of good reports.
ghost use Rattle.dual_checker.specs.Laws.{BoundIsLower, BoundIsLowerOff, BoundIsLowerOverLive, FacesAreOptimal, SkeletonIsCommon};

/// No triangulation is shorter than the bound of a good report. With the diamond test off, that needs no
/// premise; with it on, the premise is that each triangulation has a flip-minimal one of candidate edges
/// that is not longer. No triangulation with live edges is shorter, even where each edge is rounded down.
/// Where the method is faces, the bound is the lower end of the length of the triangulation, so that none
/// is shorter than that. Each skeleton edge is an edge of every flip-minimal triangulation of candidate
/// edges.
pub fn good_report_laws()
    ensures bound { BoundIsLower }
    ensures bound_off { BoundIsLowerOff }
    ensures bound_live { BoundIsLowerOverLive }
    ensures faces { FacesAreOptimal }
    ensures skeleton { SkeletonIsCommon }
{}
