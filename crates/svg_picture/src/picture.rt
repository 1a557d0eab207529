// The picture of a report.
ghost use Rattle.std.specs.Prelude.{◌≡◌, ◌<◌, All, IfOk, OnOk, length};
ghost use Rattle.cert_text.specs.Texts.{Grows};
ghost use Rattle.cert_text.specs.Within.{IsWithin};
ghost use Rattle.svg_picture.specs.Picture.{dot_width, edge_layers, picture_text, point_layers, stroke_width};

use crate::edges::Drawn;
use crate::frame::{Frame, Spot};
use crate::layers::{Look, write_edges, write_head, write_hull, write_points};
use crate::text::word;
use cert_text::Report;
use mwt_base::NoMemory;
use std::alloc::{AllocError, Global};

const FAINT: Look = Look {
    colour: "#ccc",
    thickness: 1,
};

const THIN: Look = Look {
    colour: "#37c",
    thickness: 1,
};

// The most points between which there is room for thick strokes.
const MOST_ROOMY: u32 = 1000;

// How wide strong strokes are.
fn stroke_width(report: &Report) -> u64
    ensures { result ≡ stroke_width report.now }
{
    if report.points.len() > MOST_ROOMY {
        1
    } else {
        2
    }
}

// How wide dots are.
fn dot_width(report: &Report) -> u64
    ensures { result ≡ dot_width report.now }
{
    if report.points.len() > MOST_ROOMY {
        2
    } else {
        5
    }
}

/// The text of the picture. `NoMemory` is the only error.
pub fn write_picture(alloc: Global, report: &Report) -> Result<Vec<u8>, NoMemory>
    requires { IsWithin report.now }
    ensures { IfOk result (λ text. text.items ≡ picture_text report.now) }
{
    let points = report.points.as_slice();
    let frame = Frame::of(points);
    let spots = frame.spots(alloc, points)?;
    let mut text = Vec::new(alloc);
    write_head(&mut text, &frame)?;
    write_edge_layers(alloc, &mut text, &spots, report)?;
    write_point_layers(&mut text, &spots, report)?;
    word(&mut text, "</svg>\n")?;
    Ok(text)
}

// The other live edges, the triangulation and the skeleton.
fn write_edge_layers(
    alloc: Global,
    text: &mut Vec<u8>,
    spots: &[Spot],
    report: &Report,
) -> Result<(), AllocError>
    requires within { IsWithin report.now }
    requires spots { length spots.now ≡ length report.now.points }
    ensures { OnOk result (Grows text.old.items text.new.items (edge_layers spots.now report.now)) }
{
    let drawn = Drawn::of(alloc, report)?;
    let strong = Look {
        colour: "#222",
        thickness: stroke_width(report),
    };
    write_edges(text, "live", FAINT, spots, &drawn.others)?;
    write_edges(text, "triangulation", THIN, spots, &drawn.triangulation)?;
    write_edges(text, "skeleton", strong, spots, &drawn.skeleton)?;
    Ok(())
}

// The hull and the points.
fn write_point_layers(text: &mut Vec<u8>, spots: &[Spot], report: &Report) -> Result<(), AllocError>
    requires { All (λ u. u < length spots.now) report.now.hull }
    ensures { OnOk result (Grows text.old.items text.new.items (point_layers spots.now report.now)) }
{
    let rim = Look {
        colour: "#c22",
        thickness: stroke_width(report),
    };
    let dots = Look {
        colour: "#000",
        thickness: dot_width(report),
    };
    write_hull(text, rim, spots, report.hull.as_slice())?;
    write_points(text, dots, spots)?;
    Ok(())
}
