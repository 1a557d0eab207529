// How the live lines of a report are marked.
ghost use Rattle.std.specs.Prelude.{◌≡◌, ◌↔◌, ◌⊎◌, ◌<◌, ℕ, pos, IsTrue, length, All, AllPairs, Any, Contains};
ghost use Rattle.exact_predicates.specs.Candidates.{EdgePrecedes};
ghost use Rattle.lmt_network.specs.Flags.{live_numbers};
ghost use Rattle.lmt_network.specs.Network.{edge_at};
ghost use Rattle.lmt_network.specs.Numbers.{IsSideOf};
ghost use Rattle.dual_checker.specs.GoodReport.{HasMarks, IsMarked, HasLiveTriangle};
ghost use Rattle.dual_checker.specs.LiveLines.{HasNumbers};

use crate::ledger::Ledger;
use cert_text::{LineKind, PriceLine};
use exact_predicates::{Edge, Edges, place_of_edge};

impl<'a> Ledger<'a> {
    /// Whether each live line is marked by what its edge is, and an edge of the hull without a live triangle
    /// has the anchor 0.
    pub fn has_marks(&self) -> bool
        requires { HasNumbers self.now.report.now self.now.net.now self.now.flags.now self.now.numbers.now }
        ensures { IsTrue result ↔ HasMarks self.now.report.now }
    {
        for (k, line) in self.report.live.as_slice().iter().enumerate() {
            if !self.is_marked(self.numbers[k], *line) {
                return false;
            }
        }
        true
    }

    // Whether the line of the edge with this number is marked so.
    fn is_marked(&self, e: u32, line: PriceLine) -> bool
        requires numbers { HasNumbers self.now.report.now self.now.net.now self.now.flags.now self.now.numbers.now }
        requires e_in { e < length self.now.net.now.edges }
        requires line { line.edge ≡ edge_at self.now.net.now e }
        ensures { IsTrue result ↔ IsMarked self.now.report.now line }
    {
        let on_hull = self.net.is_hull(e);
        match line.kind {
            LineKind::Hull => on_hull && self.is_held(e, line.value),
            LineKind::Inner => !on_hull && self.is_listed_in_version_2(line.edge, false),
            LineKind::Skeleton => !on_hull && self.is_listed_in_version_2(line.edge, true),
        }
    }

    // Whether an edge with this anchor is a side of some live triangle, or the anchor is 0.
    fn is_held(&self, e: u32, anchor: i64) -> bool
        requires numbers { HasNumbers self.now.report.now self.now.net.now self.now.flags.now self.now.numbers.now }
        requires e_in { e < length self.now.net.now.edges }
        ensures { IsTrue result ↔ (HasLiveTriangle self.now.report.now (edge_at self.now.net.now e) ⊎ (anchor ≡ pos 0)) }
    {
        self.has_live_triangle(e) || anchor == 0
    }

    // Whether in version 2 an edge is in the skeleton, or is not, as it should be.
    fn is_listed_in_version_2(&self, edge: Edge, should_be: bool) -> bool
        requires numbers { HasNumbers self.now.report.now self.now.net.now self.now.flags.now self.now.numbers.now }
        ensures { IsTrue result ↔ (self.now.report.now.version ≡ 2 → (IsTrue should_be ↔ Contains self.now.report.now.skeleton edge)) }
    {
        self.report.version != 2 || is_listed(&self.report.skeleton, edge) == should_be
    }

    // Whether some live triangle has the edge with this number as a side.
    fn has_live_triangle(&self, e: u32) -> bool
        requires numbers { HasNumbers self.now.report.now self.now.net.now self.now.flags.now self.now.numbers.now }
        requires e_in { e < length self.now.net.now.edges }
        ensures { IsTrue result ↔ HasLiveTriangle self.now.report.now (edge_at self.now.net.now e) }
    {
        self.has_live(self.net.left(e)) || self.has_live(self.net.right(e))
    }

    // Whether one of these triangles is live.
    fn has_live(&self, row: &[u32]) -> bool
        requires row { All (λ t. t < length self.now.net.now.tris) row.now }
        requires one_each { length self.now.flags.now ≡ length self.now.net.now.edges }
        ensures { IsTrue result ↔ Any (λ t. (f : ℕ) → IsSideOf self.now.net.now t f → Contains (live_numbers self.now.flags.now) f) row.now }
    {
        for t in row {
            if self.is_live(*t) {
                return true;
            }
        }
        false
    }
}

// Whether an edge is in an ascending list.
fn is_listed(edges: &Edges, edge: Edge) -> bool
    requires { AllPairs EdgePrecedes edges.now }
    ensures { IsTrue result ↔ Contains edges.now edge }
{
    place_of_edge(edges.as_slice(), edge.a, edge.b).is_some()
}
