// The laws of the crate, as contracts of functions that do nothing.
ghost use Rattle.lmt_network.specs.Bounds.{BoundIsBelow, BoundHolds, BoundHoldsOff, ExclusionOff, ExclusionWhereSame};
ghost use Rattle.lmt_network.specs.Derivation.{RankedIsDead, RankedIsInNone};
ghost use Rattle.lmt_network.specs.FlipMinimal.{FlipMinimalIsClosed, FlipMinimalIsLive, EdgesAreCandidates};
ghost use Rattle.lmt_network.specs.LiveSuffices.{ShortestOverLiveIsMinimum, BoundOverLiveIsBound};
ghost use Rattle.lmt_network.specs.Minimum.{MinimumIsFlipMinimal, MinimumIsLive, MinimumHasSkeleton, MinimumExists};
ghost use Rattle.lmt_network.specs.NumberLaws.{BrokenIsDead, HullIsNotDead, LiveNumbersAreOne, DeadIsInNone, LiveNumbersAreLive};
ghost use Rattle.lmt_network.specs.PriceTables.{TablesAreByNumber, TablesPriceLiveEdges};
ghost use Rattle.lmt_network.specs.Skeleton.{OneSkeleton, SkeletonInTriangulation, SkeletonInFlipMinimal, HullInSkeleton};
ghost use Rattle.lmt_network.specs.Uniqueness.{OneCandidateList, OneLiveList};

/// The laws that the points of a problem have one list of candidate edges and one live list, so that
/// both are functions of the points and of the value of the diamond test.
pub fn unique_list_laws()
    ensures candidates { OneCandidateList }
    ensures live { OneLiveList }
{}

/// The laws on closed edges that are known by their numbers. An edge that is no hull edge, and each of
/// whose locally minimal pairs has a dead side, is dead; a hull edge is not; a dead edge is in no
/// closed list. The live numbers are one set, and their edges are the live list.
pub fn number_laws()
    ensures broken { BrokenIsDead }
    ensures hull { HullIsNotDead }
    ensures dead { DeadIsInNone }
    ensures one { LiveNumbersAreOne }
    ensures live { LiveNumbersAreLive }
{}

/// The laws on ranks that are a derivation. An edge with a rank above 0 is dead, so no closed list holds
/// it.
pub fn derivation_laws()
    ensures dead { RankedIsDead }
    ensures none { RankedIsInNone }
{}

/// The laws on the edges of a flip-minimal triangulation. Where all of them are candidates they are a
/// closed list, so each of them is live. With the diamond test off the edges of every triangulation
/// are candidates. After Dickerson and Montague, "A (usually?) connected subgraph of the minimum
/// weight triangulation" (1996).
pub fn flip_minimal_laws()
    ensures closed { FlipMinimalIsClosed }
    ensures live { FlipMinimalIsLive }
    ensures candidates { EdgesAreCandidates }
{}

/// The laws on the skeleton. That of some candidate edges lies in every triangulation whose edges are
/// all among them, so that of the live edges in every flip-minimal triangulation of candidate edges.
/// That of the live edges has the edges of the hull. A list has one skeleton.
pub fn skeleton_laws()
    ensures one { OneSkeleton }
    ensures in_triangulation { SkeletonInTriangulation }
    ensures in_flip_minimal { SkeletonInFlipMinimal }
    ensures hull { HullInSkeleton }
{}

/// The laws on minimum-weight triangulations. No flip makes an edge of one shorter. So with the
/// diamond test off each edge of one is live, and each skeleton edge is an edge of it. Where there is
/// a triangulation, it is not so that none is of minimum weight.
pub fn minimum_laws()
    ensures flip_minimal { MinimumIsFlipMinimal }
    ensures live { MinimumIsLive }
    ensures skeleton { MinimumHasSkeleton }
    ensures exists { MinimumExists }
{}

/// The laws that make live edges enough, with the diamond test off. A triangulation as short as each
/// with live edges is of minimum weight. A lower bound of the lengths of those with live edges is one
/// of the lengths of all.
pub fn live_edges_suffice()
    ensures shortest { ShortestOverLiveIsMinimum }
    ensures bound { BoundOverLiveIsBound }
{}

/// The laws of the bound that feasible prices of the live edges give, with anchors of any skeleton
/// edges. A triangulation with live edges is at least as long as the bound says. No triangulation at
/// all is shorter than the bound: with the diamond test off for certain, and with any value of it
/// under its exclusion premise, which holds where the test leaves all candidates.
pub fn bound_laws()
    ensures below { BoundIsBelow }
    ensures exclusion_off { ExclusionOff }
    ensures exclusion_where_same { ExclusionWhereSame }
    ensures bound { BoundHolds }
    ensures bound_off { BoundHoldsOff }
{}

/// The laws on prices that are kept by the numbers of a network's edges. What the prices say of a live
/// edge is its entry in the table, and the live triangles are the network's triangles with live sides.
/// The edges priced are the live edges in their order.
pub fn price_table_laws()
    ensures by_number { TablesAreByNumber }
    ensures edges { TablesPriceLiveEdges }
{}
