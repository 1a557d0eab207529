// The lines of a picture.
ghost use Rattle.std.specs.Prelude.{◌≡◌, ◌<◌, ◌++◌, [], ◌∷◌, All, OnOk, codes, length, map};
ghost use Rattle.cert_text.specs.Texts.{Grows};
ghost use Rattle.svg_picture.specs.Frames.{IsFrameInRange};
ghost use Rattle.svg_picture.specs.Picture.{attribute, closing, dot, head_lines, layer, line_between, measures, opening, spot_at, spot_text, stroke, view_box};

use crate::frame::{Frame, Spot};
use crate::side_set::Side;
use crate::text::{number, word};
use itoa::Buffer;
use std::alloc::AllocError;

/// How the strokes of a layer look: the colour, and the width in pixels.
#[derive(Clone, Copy)]
pub struct Look {
    pub colour: &'static str,
    pub thickness: u64,
}

#[tactic(auto, unfolding(crate::specs::Picture::attribute))]
fn write_attribute(text: &mut Vec<u8>, name: &str, value: &str) -> Result<(), AllocError>
    ensures { OnOk result (text.new.items ≡ text.old.items ++ attribute name.now value.now) }
{
    word(text, " ")?;
    word(text, name)?;
    word(text, "='")?;
    word(text, value)?;
    word(text, "'")
}

// The view box.
fn write_view_box(text: &mut Vec<u8>, frame: &Frame) -> Result<(), AllocError>
    requires { IsFrameInRange frame.now }
    ensures { OnOk result (text.new.items ≡ text.old.items ++ view_box frame.now) }
{
    word(text, " viewBox='0 0 ")?;
    number(text, frame.extent(frame.width()))?;
    word(text, " ")?;
    number(text, frame.extent(frame.height()))?;
    word(text, "'")?;
    Ok(())
}

// The size on a screen, and the view box.
#[tactic(auto, unfolding(crate::specs::Picture::measures))]
fn write_measures(text: &mut Vec<u8>, frame: &Frame) -> Result<(), AllocError>
    requires { IsFrameInRange frame.now }
    ensures { OnOk result (text.new.items ≡ text.old.items ++ measures frame.now) }
{
    let width = frame.pixels(frame.width());
    let height = frame.pixels(frame.height());
    write_attribute(text, "width", Buffer::new().format(width))?;
    write_attribute(text, "height", Buffer::new().format(height))?;
    write_view_box(text, frame)
}

/// The lines before the layers.
pub fn write_head(text: &mut Vec<u8>, frame: &Frame) -> Result<(), AllocError>
    requires { IsFrameInRange frame.now }
    ensures { OnOk result (Grows text.old.items text.new.items (head_lines frame.now)) }
{
    word(
        text,
        "<svg xmlns='http://www.w3.org/2000/svg' version='1.1'",
    )?;
    write_measures(text, frame)?;
    word(
        text,
        " fill='none' stroke-linecap='round' stroke-linejoin='round'>\n",
    )?;
    word(
        text,
        "<rect id='paper' width='100%' height='100%' fill='#fff'/>\n",
    )?;
    Ok(())
}

// The first line of a layer.
fn open(text: &mut Vec<u8>, name: &str, look: Look) -> Result<(), AllocError>
    ensures { OnOk result (Grows text.old.items text.new.items (opening name.now look.colour.now look.thickness ∷ [])) }
{
    word(text, "<g")?;
    write_attribute(text, "id", name)?;
    write_attribute(text, "stroke", look.colour)?;
    write_attribute(text, "stroke-width", Buffer::new().format(look.thickness))?;
    word(text, "><path vector-effect='non-scaling-stroke' d='\n")?;
    Ok(())
}

// Its last line.
#[tactic(auto, unfolding(crate::specs::Picture::closing))]
fn close(text: &mut Vec<u8>) -> Result<(), AllocError>
    ensures { OnOk result (Grows text.old.items text.new.items (closing ∷ [])) }
{
    word(text, "'/></g>\n")
}

fn write_spot(text: &mut Vec<u8>, spot: Spot) -> Result<(), AllocError>
    ensures { OnOk result (text.new.items ≡ text.old.items ++ spot_text spot) }
{
    number(text, spot.x)?;
    word(text, " ")?;
    number(text, spot.y)
}

fn write_line(text: &mut Vec<u8>, from: Spot, to: Spot) -> Result<(), AllocError>
    ensures { OnOk result (Grows text.old.items text.new.items (line_between from to ∷ [])) }
{
    word(text, "M")?;
    write_spot(text, from)?;
    word(text, "L")?;
    write_spot(text, to)?;
    word(text, "\n")
}

fn write_dot(text: &mut Vec<u8>, spot: Spot) -> Result<(), AllocError>
    ensures { OnOk result (Grows text.old.items text.new.items (dot spot ∷ [])) }
{
    word(text, "M")?;
    write_spot(text, spot)?;
    word(text, "h0\n")
}

/// A layer of edges.
pub fn write_edges(
    text: &mut Vec<u8>,
    name: &str,
    look: Look,
    spots: &[Spot],
    edges: &[Side],
) -> Result<(), AllocError>
    requires { All (λ s. (s.0 < length spots.now) × (s.1 < length spots.now)) edges.now }
    ensures { OnOk result (Grows text.old.items text.new.items
        (layer name.now look.colour.now look.thickness (map (stroke spots.now) edges.now))) }
{
    open(text, name, look)?;
    for &(u, v) in edges {
        write_line(text, spots[u as usize], spots[v as usize])?;
    }
    close(text)?;
    Ok(())
}

/// The layer of the hull.
pub fn write_hull(
    text: &mut Vec<u8>,
    look: Look,
    spots: &[Spot],
    hull: &[u32],
) -> Result<(), AllocError>
    requires { All (λ u. u < length spots.now) hull.now }
    ensures { OnOk result (Grows text.old.items text.new.items (layer (codes "hull") look.colour.now look.thickness
        (codes "M" ∷ (map (λ u. spot_text (spot_at spots.now u)) hull.now ++ codes "z" ∷ [])))) }
{
    open(text, "hull", look)?;
    word(text, "M\n")?;
    for &u in hull {
        write_spot(text, spots[u as usize])?;
        word(text, "\n")?;
    }
    word(text, "z\n")?;
    close(text)?;
    Ok(())
}

/// The layer of the points.
pub fn write_points(text: &mut Vec<u8>, look: Look, spots: &[Spot]) -> Result<(), AllocError>
    ensures { OnOk result (Grows text.old.items text.new.items
        (layer (codes "points") look.colour.now look.thickness (map dot spots.now))) }
{
    open(text, "points", look)?;
    for spot in spots {
        write_dot(text, *spot)?;
    }
    close(text)?;
    Ok(())
}
