// The length of a report, and what it has to do with the bound.
ghost use Rattle.std.specs.Prelude.{◌≡◌, ◌↔◌, IsTrue};
ghost use Rattle.cert_text.specs.Within.{IsWithin};
ghost use Rattle.dual_checker.specs.GoodReport.{HasHull, HasLength, HasGap, HasFaces};

use cert_text::{Method, Report};
use exact_predicates::Points;
use length_enclosure::enclosure;

/// Whether the two ends of a report's length are those of its triangles.
pub fn has_length(points: &Points, report: &Report) -> bool
    requires points { points.now.points ≡ report.now.points }
    requires within { IsWithin report.now }
    requires hull { HasHull report.now }
    ensures { IsTrue result ↔ HasLength report.now }
{
    let ends = enclosure(points, &report.hull, &report.tris);
    ends.lo == report.lo && ends.hi == report.hi
}

/// Whether a report's gap is the upper end of its length less its bound.
pub fn has_gap(report: &Report) -> bool
    requires { IsWithin report.now }
    ensures { IsTrue result ↔ HasGap report.now }
{
    report.gap == report.hi as i128 - report.bound
}

/// Whether a report's bound is the lower end of its length, where its method is faces.
pub fn has_faces(report: &Report) -> bool
    requires within { IsWithin report.now }
    requires length { HasLength report.now }
    ensures { IsTrue result ↔ HasFaces report.now }
{
    match report.method {
        Method::Flips => true,
        Method::Faces => report.bound == report.lo as i128,
    }
}
