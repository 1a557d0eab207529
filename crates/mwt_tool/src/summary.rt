// The summary of a report.
ghost use Rattle.std.specs.Prelude.{◌≡◌, ◌≤◌, [], ◌∷◌, IfOk, OnOk, codes, pos, unsigned_abs};
ghost use Rattle.mwt_base.specs.Limits.{most_amount, most_length};
ghost use Rattle.length_enclosure.specs.Amount.{amount};
ghost use Rattle.cert_text.specs.Texts.{Grows, count_line, length_lines, spaced};
ghost use Rattle.cert_text.specs.Within.{IsWithin};
ghost use Rattle.mwt_tool.specs.Summary.{count_lines, summary_text};

use cert_text::Report;
use itoa::Buffer;
use length_enclosure::write_units;
use mwt_base::NoMemory;
use std::alloc::{AllocError, Global};

/// Eight lines: how many points, candidates, live edges, skeleton edges and triangles there are, the two
/// ends of the length, the bound, and the gap.
pub fn summary(alloc: Global, report: &Report) -> Result<Vec<u8>, NoMemory>
    requires { IsWithin report.now }
    ensures { IfOk result (λ text. text.items ≡ summary_text report.now) }
{
    let mut text = Vec::new(alloc);
    write_counts(&mut text, report)?;
    write_lengths(&mut text, report)?;
    Ok(text)
}

fn write_counts(text: &mut Vec<u8>, report: &Report) -> Result<(), AllocError>
    ensures { OnOk result (Grows text.old.items text.new.items (count_lines report.now)) }
{
    write_count(text, "points", report.points.len())?;
    write_count(text, "candidates", report.candidates)?;
    write_count(text, "live", report.live.len())?;
    write_count(text, "skeleton", report.skeleton.len())?;
    write_count(text, "triangles", report.tris.len())?;
    Ok(())
}

/// A line with a word and a number.
pub fn write_count(text: &mut Vec<u8>, word: &str, n: u32) -> Result<(), AllocError>
    ensures { OnOk result (Grows text.old.items text.new.items (count_line word.now n ∷ [])) }
{
    text.extend_from_slice(word.as_bytes())?;
    text.push(b' ')?;
    text.extend_from_slice(Buffer::new().format(n).as_bytes())?;
    text.push(b'\n')?;
    Ok(())
}

fn write_lengths(text: &mut Vec<u8>, report: &Report) -> Result<(), NoMemory>
    requires lo { report.now.lo ≤ most_length }
    requires hi { report.now.hi ≤ most_length }
    requires bound { unsigned_abs report.now.bound ≤ most_amount }
    requires gap { unsigned_abs report.now.gap ≤ most_amount }
    ensures { OnOk result (Grows text.old.items text.new.items (length_lines report.now)) }
{
    write_length(text, report.lo, report.hi)?;
    write_amount(text, "bound", report.bound)?;
    write_amount(text, "gap", report.gap)?;
    Ok(())
}

// The line with the two ends of the length.
fn write_length(text: &mut Vec<u8>, lo: u128, hi: u128) -> Result<(), NoMemory>
    requires lo { lo ≤ most_length }
    requires hi { hi ≤ most_length }
    ensures { OnOk result (Grows text.old.items text.new.items
        (spaced (codes "length" ∷ amount (pos lo) ∷ amount (pos hi) ∷ []) ∷ [])) }
{
    text.extend_from_slice(b"length ")?;
    write_units(text, lo as i128)?;
    text.push(b' ')?;
    write_units(text, hi as i128)?;
    text.push(b'\n')?;
    Ok(())
}

// A line with a word and an amount.
fn write_amount(text: &mut Vec<u8>, word: &str, n: i128) -> Result<(), NoMemory>
    requires { unsigned_abs n ≤ most_amount }
    ensures { OnOk result (Grows text.old.items text.new.items (spaced (word.now ∷ amount n ∷ []) ∷ [])) }
{
    text.extend_from_slice(word.as_bytes())?;
    text.push(b' ')?;
    write_units(text, n)?;
    text.push(b'\n')?;
    Ok(())
}
