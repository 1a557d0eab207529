// Reads a point file.
ghost use Rattle.std.specs.Prelude.{◌≡◌, ◌⊎◌, ◌<◌, ◌≤◌, ◌^◌, length, IsTrue, true, Some, IfOk, IfErr};
ghost use Rattle.std.specs.List.{list_all};
ghost use Rattle.mwt_base.specs.Limits.{most_unit};
ghost use Rattle.exact_predicates.specs.Merging.{IsMadeFrom, points_code, has_distinct_ids, is_in_range};
ghost use Rattle.tsplib_points.specs.declared.file.Refusal.{Refusal as refusal_type};
ghost use Rattle.tsplib_points.specs.Reasons.{refused};
ghost use Rattle.tsplib_points.specs.Refusals.{is_count, points_refusal, refusal};
ghost use Rattle.tsplib_points.specs.Files.{IsFileOf};

use crate::file::{File, FileStop};
use crate::gather::gather;
use crate::node::KeptNode;
use crate::reason::Reason;
use crate::scaling::{points, unit_of};
use exact_predicates::{PointList, Points, PointsStop};
use mwt_base::Bytes;
use std::alloc::Global;

// Whether DIMENSION tells the number of these nodes.
fn is_count(told: Option<u32>, nodes: &[KeptNode]) -> bool
    ensures is { result ≡ is_count told (length nodes.now) }
    ensures few { IsTrue result → length nodes.now < 2 ^ 32 }
{
    match told {
        Some(told) => told as usize == nodes.len(),
        None => false,
    }
}

// Why a file is refused whose points, in range and with distinct ids, break this rule of a set of
// points.
fn reason_of(rule: u32) -> Reason
    requires { (rule ≡ 2) ⊎ (rule ≡ 1) ⊎ (rule ≡ 3) }
    ensures { points_refusal (Some rule) ≡ Some (refused result) }
{
    match PointsStop::Refused(rule) {
        PointsStop::TOO_MANY => Reason::TooMany,
        PointsStop::TOO_FEW => Reason::TooFew,
        PointsStop::FLAT => Reason::Flat,
        _ => unreachable!(),
    }
}

// The points of a problem, made from points in range with distinct ids.
fn lawful(alloc: Global, list: PointList) -> Result<Points, FileStop>
    requires in_range { list_all is_in_range list ≡ true }
    requires distinct { has_distinct_ids list ≡ true }
    ensures made { IfOk result (λ points. IsMadeFrom list points) }
    ensures refused { IfErr result (λ stop. (why : refusal_type) → stop ≡ FileStop.Refused why →
        points_refusal (points_code list) ≡ Some why) }
{
    match Points::new(alloc, list) {
        Ok(points) => Ok(points),
        Err(PointsStop::NoMemory) => Err(FileStop::NoMemory),
        Err(PointsStop::Refused(rule)) => Err(FileStop::Refused(reason_of(rule).of_file())),
    }
}

/// The points of a file, in the least unit in which all its coordinates are whole. Nodes with the
/// coordinates of an earlier one are dropped and counted.
///
/// A file is refused for the first line that fails, from the top; where no line fails, for the first of
/// the rules of the whole file that it breaks. Where neither, there is an answer, or memory runs out.
/// The time is linear in the bytes, but for sorting.
pub fn read_points(alloc: Global, bytes: &Bytes) -> Result<File, FileStop>
    ensures file { IfOk result (λ file. IsFileOf bytes.now file) }
    ensures unit { IfOk result (λ file. file.unit ≤ most_unit) }
    ensures refused { IfErr result (λ stop. (why : refusal_type) → stop ≡ FileStop.Refused why →
        refusal bytes.now ≡ Some why) }
{
    let found = gather(alloc, bytes.as_slice())?;
    if !found.has_section {
        return Err(FileStop::Refused(Reason::NoCoords.of_file()));
    }
    if !is_count(found.dimension, &found.nodes) {
        return Err(FileStop::Refused(Reason::Count.of_file()));
    }
    let unit = unit_of(&found.nodes);
    let points = points(alloc, found.nodes, unit)?;
    let points = lawful(alloc, PointList::of(points))?;
    let merged = points.merged();
    Ok(File {
        points,
        unit: u32::from(unit),
        merged,
    })
}
