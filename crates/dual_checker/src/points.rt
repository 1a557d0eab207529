// The points of a report, and its hull.
ghost use Rattle.std.specs.Prelude.{◌≡◌, ◌↔◌, IsTrue, IfOk, MatchOption};
ghost use Rattle.exact_predicates.specs.Hull.{IsHull};
ghost use Rattle.cert_text.specs.Within.{IsWithin};
ghost use Rattle.dual_checker.specs.GoodReport.{HasPoints, HasHull};

use cert_text::Report;
use exact_predicates::{Hull, PointList, Points, PointsStop};
use mwt_base::NoMemory;
use std::alloc::Global;

/// The points of a report, where its ids differ and not all of its points lie on one line.
pub fn points_of(alloc: Global, report: &Report) -> Result<Option<Points>, NoMemory>
    requires { IsWithin report.now }
    ensures { IfOk result (λ found. MatchOption found (¬ HasPoints report.now)
        (λ points. HasPoints report.now × (points.points ≡ report.now.points))) }
{
    let list = Vec::from_slice(alloc, report.points.as_slice())?;
    match Points::new(alloc, PointList::of(list)) {
        Ok(points) => Ok(Some(points)),
        Err(PointsStop::Refused(_)) => Ok(None),
        Err(PointsStop::NoMemory) => Err(NoMemory),
    }
}
