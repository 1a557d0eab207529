// Writes a report.
ghost use Rattle.std.specs.Prelude.{◌≡◌, ◌^◌, ◌≤◌, [], ◌∷◌, ◌++◌, pos, unsigned_abs, codes, IfOk, OnOk};
ghost use Rattle.mwt_base.specs.Limits.{most_amount, most_length};
ghost use Rattle.length_enclosure.specs.Amount.{amount};
ghost use Rattle.cert_text.specs.Texts.{Grows, spaced, count_line, block, diamond_word, method_word, head_lines, point_lines, edge_lines, length_lines, tail_lines, report_text};
ghost use Rattle.cert_text.specs.Within.{IsWithin};

use crate::report::{Method, Report};
use crate::rows::Row;
use crate::text::Text;
use exact_predicates::Diamond;
use mwt_base::{Bytes, ItemList, NoMemory};
use std::alloc::Global;

fn diamond_word(diamond: Diamond) -> &'static str
    ensures { result.now ≡ diamond_word diamond }
{
    match diamond {
        Diamond::On => "on",
        Diamond::Off => "off",
    }
}

fn method_word(method: Method) -> &'static str
    ensures { result.now ≡ method_word method }
{
    match method {
        Method::Flips => "flips",
        Method::Faces => "faces",
    }
}

// A line of two words.
fn write_words(text: &mut Text, first: &str, second: &str) -> Result<(), NoMemory>
    ensures { OnOk result (Grows text.old text.new (spaced (first.now ∷ second.now ∷ []) ∷ [])) }
{
    text.word(first)?;
    text.word(" ")?;
    text.word(second)?;
    text.word("\n")
}

// A line with a word and a number.
fn write_count(text: &mut Text, word: &str, n: u32) -> Result<(), NoMemory>
    ensures { OnOk result (Grows text.old text.new (count_line word.now n ∷ [])) }
{
    text.word(word)?;
    text.word(" ")?;
    text.number(n)?;
    text.word("\n")
}

// A line with a word and an amount.
fn write_amount(text: &mut Text, word: &str, n: i128) -> Result<(), NoMemory>
    requires { unsigned_abs n ≤ most_amount }
    ensures { OnOk result (Grows text.old text.new (spaced (word.now ∷ amount n ∷ []) ∷ [])) }
{
    text.word(word)?;
    text.word(" ")?;
    text.amount(n)?;
    text.word("\n")
}

// The line with the two ends of the enclosure.
fn write_length(text: &mut Text, lo: u128, hi: u128) -> Result<(), NoMemory>
    requires lo { lo ≤ most_length }
    requires hi { hi ≤ most_length }
    ensures { OnOk result (Grows text.old text.new
        (spaced (codes "length" ∷ amount (pos lo) ∷ amount (pos hi) ∷ []) ∷ [])) }
{
    text.word("length ")?;
    text.amount(lo as i128)?;
    text.word(" ")?;
    text.amount(hi as i128)?;
    text.word("\n")
}

// A list: how many rows it has, and these.
fn write_block<R: Row>(text: &mut Text, word: &str, rows: &ItemList<R>) -> Result<(), NoMemory>
    ensures { OnOk result (Grows text.old text.new (block word.now R.spelling rows.now)) }
{
    write_count(text, word, rows.len())?;
    for row in rows.as_slice() {
        row.write(text)?;
    }
    Ok(())
}

// The lines before the lists.
fn write_head(text: &mut Text, report: &Report) -> Result<(), NoMemory>
    ensures { OnOk result (Grows text.old text.new (head_lines report.now)) }
{
    write_count(text, "mwt", report.version)?;
    write_words(text, "diamond", diamond_word(report.diamond))?;
    write_count(text, "unit", report.unit)?;
    write_count(text, "merged", report.merged)?;
    Ok(())
}

// The lines with the lengths.
fn write_lengths(text: &mut Text, report: &Report) -> Result<(), NoMemory>
    requires lo { report.now.lo ≤ most_length }
    requires hi { report.now.hi ≤ most_length }
    requires bound { unsigned_abs report.now.bound ≤ most_amount }
    requires gap { unsigned_abs report.now.gap ≤ most_amount }
    ensures { OnOk result (Grows text.old text.new (length_lines report.now)) }
{
    write_length(text, report.lo, report.hi)?;
    write_amount(text, "bound", report.bound)?;
    write_amount(text, "gap", report.gap)?;
    Ok(())
}

// The lines after the lists.
fn write_tail(text: &mut Text, report: &Report) -> Result<(), NoMemory>
    requires lo { report.now.lo ≤ most_length }
    requires hi { report.now.hi ≤ most_length }
    requires bound { unsigned_abs report.now.bound ≤ most_amount }
    requires gap { unsigned_abs report.now.gap ≤ most_amount }
    ensures { OnOk result (Grows text.old text.new (tail_lines report.now)) }
{
    write_words(text, "method", method_word(report.method))?;
    write_lengths(text, report)?;
    text.word("end\n")?;
    Ok(())
}

// The points, the hull and the number of candidate edges.
fn write_points(text: &mut Text, report: &Report) -> Result<(), NoMemory>
    ensures { OnOk result (Grows text.old text.new (point_lines report.now)) }
{
    write_block(text, "points", &report.points)?;
    write_block(text, "hull", &report.hull)?;
    write_count(text, "candidates", report.candidates)?;
    Ok(())
}

// The live edges, the skeleton and the triangles.
fn write_edges(text: &mut Text, report: &Report) -> Result<(), NoMemory>
    ensures { OnOk result (Grows text.old text.new (edge_lines report.now)) }
{
    write_block(text, "live", &report.live)?;
    write_block(text, "skeleton", &report.skeleton)?;
    write_block(text, "triangles", &report.tris)?;
    Ok(())
}

/// The text of a report.
pub fn write_report(alloc: Global, report: &Report) -> Result<Bytes, NoMemory>
    requires { IsWithin report.now }
    ensures { IfOk result (λ bytes. bytes ≡ report_text report.now) }
{
    let mut text = Text::new(alloc);
    write_head(&mut text, report)?;
    write_points(&mut text, report)?;
    write_edges(&mut text, report)?;
    write_tail(&mut text, report)?;
    let bytes = text.into_bytes();
    Ok(Bytes::of(bytes))
}
