// The unit of a file, and its points in that unit.
ghost use Rattle.std.specs.Prelude.{◌≡◌, ◌≤◌, List, map, find, None, Some, All, IfOk, IfErr, if◌then◌else◌};
ghost use Rattle.std.specs.List.{AllZip};
ghost use Rattle.std.specs.Option.{option_map};
ghost use Rattle.mwt_base.specs.Limits.{most_unit};
ghost use Rattle.exact_predicates.specs.Merging.{is_too_large};
ghost use Rattle.tsplib_points.specs.declared.file.Refusal.{Refusal as refusal_type};
ghost use Rattle.tsplib_points.specs.declared.reason.Reason.TheVariants.{TooLarge};
ghost use Rattle.tsplib_points.specs.Real.{Real, size_times, times};
ghost use Rattle.tsplib_points.specs.Nodes.{Node};
ghost use Rattle.tsplib_points.specs.Kept.{Keeps};
ghost use Rattle.tsplib_points.specs.Gathering.{KeepsNode, IsWithinUnit};
ghost use Rattle.tsplib_points.specs.Reasons.{refused_at};
ghost use Rattle.tsplib_points.specs.Refusals.{unit, scaled, is_large};

use crate::decimal::Decimal;
use crate::file::FileStop;
use crate::node::KeptNode;
use crate::reason::Reason;
use exact_predicates::Point;
use std::alloc::Global;

// The greatest size of a scaled coordinate, which the contract of `coordinate` says.
const MOST_COORDINATE: u64 = 1_000_000_000;

/// The least unit in which all coordinates of these nodes are whole.
pub fn unit_of(nodes: &[KeptNode]) -> u8
    ensures { (ns : List Node) → AllZip KeepsNode nodes.now ns → result ≡ unit ns }
{
    let mut least = 0;
    for node in nodes {
        least = node.x.unit.max(node.y.unit).max(least);
    }
    least
}

// A coordinate in units of 10^-`unit`, where it is at most 10^9 in size.
fn coordinate(kept: &Decimal, unit: u8) -> Option<i64>
    requires within { kept.now.unit ≤ unit }
    requires few { unit ≤ most_unit }
    ensures { (r : Real) → Keeps kept.now.negative kept.now.unit kept.now.size r →
        result ≡ (if is_too_large (size_times unit r) then None else Some (times unit r)) }
{
    let size = u64::from(kept.size) * 10u64.pow(u32::from(unit - kept.unit));
    if size > MOST_COORDINATE {
        return None;
    }
    let size = size as i64;
    Some(if kept.negative { -size } else { size })
}

// The point of a node in units of 10^-`unit`, where no coordinate is above 10^9 in size.
fn point(node: &KeptNode, unit: u8) -> Option<Point>
    requires within { IsWithinUnit unit node.now }
    requires few { unit ≤ most_unit }
    ensures { (n : Node) → KeepsNode node.now n →
        result ≡ (if is_large unit n then None else Some (scaled unit n)) }
{
    let x = coordinate(&node.x, unit)?;
    let y = coordinate(&node.y, unit)?;
    Some(Point {
        id: node.number,
        x,
        y,
    })
}

/// The points of these nodes in units of 10^-`unit`, or the refusal of the first node of which a
/// coordinate is then above 10^9 in size. The memory of the nodes is free again after it.
pub fn points(alloc: Global, nodes: Vec<KeptNode>, unit: u8) -> Result<Vec<Point>, FileStop>
    requires within { All (IsWithinUnit unit) nodes.items }
    requires few { unit ≤ most_unit }
    ensures scaled { IfOk result (λ points. (ns : List Node) → AllZip KeepsNode nodes.items ns →
        points.items ≡ map (scaled unit) ns) }
    ensures in_range { IfOk result (λ _. (ns : List Node) → AllZip KeepsNode nodes.items ns →
        find (is_large unit) ns ≡ None) }
    ensures refused { IfErr result (λ stop. (why : refusal_type) → stop ≡ FileStop.Refused why →
        (ns : List Node) → AllZip KeepsNode nodes.items ns →
        option_map (λ n. refused_at n.line TooLarge) (find (is_large unit) ns) ≡ Some why) }
{
    let mut points = Vec::with_capacity(alloc, nodes.len())?;
    for node in &nodes {
        let Some(point) = point(node, unit) else {
            return Err(FileStop::Refused(Reason::TooLarge.at(node.line)));
        };
        points.push(point)?;
    }
    Ok(points)
}
