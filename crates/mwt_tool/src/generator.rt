// The point file of a seed.
ghost use Rattle.std.specs.Prelude.{◌≡◌, ◌+◌, ◌*◌, ◌<◌, ◌≤◌, [], ◌∷◌, IfOk, OnOk, length, string_bytes};
ghost use Rattle.mwt_base.specs.Limits.{most_points};
ghost use Rattle.cert_text.specs.Texts.{Grows, lines_text};
ghost use Rattle.mwt_tool.specs.Makes.{coordinate, header_lines, made_text, mixed, node_line, xor_shift};

use mwt_base::{Bytes, NoMemory};
use std::alloc::{AllocError, Global};

/// The point file with `n` points at random places, named by the seed and `n`. Each coordinate is a
/// whole number from 0 to 1,048,575, and depends on the seed and its place in the file alone: the
/// upper bits of a word that is mixed by three xorshifts and two products, as `lowbias32` of
/// C. Wellons does. `NoMemory` comes where the text cannot grow.
pub fn generate(alloc: Global, seed: u32, n: u32) -> Result<Bytes, NoMemory>
    requires seed { 0 < seed }
    requires least { 3 ≤ n }
    requires most { n ≤ most_points }
    ensures { IfOk result (λ text. text ≡ made_text seed n) }
{
    let mut text = header(alloc, seed, n)?;
    for i in 0..n {
        write_node(&mut text, seed, i + 1)?;
    }
    text.push_str("EOF\n")?;
    Ok(Bytes::of(text.into_bytes()))
}

// The lines before the nodes.
fn header(alloc: Global, seed: u32, n: u32) -> Result<String, AllocError>
    ensures lines { IfOk result (λ text. string_bytes text ≡ lines_text (header_lines seed n)) }
    ensures short { IfOk result (λ text. length (string_bytes text) ≤ 200) }
{
    let text = format!(in alloc;
        "NAME : mwt-{seed}-{n}\nTYPE : TSP\nDIMENSION : {n}\nEDGE_WEIGHT_TYPE : EUC_2D\nNODE_COORD_SECTION\n"
    )?;
    Ok(text)
}

// Appends the line of the node i.
fn write_node(text: &mut String, seed: u32, i: u32) -> Result<(), AllocError>
    requires first { 0 < i }
    requires last { i ≤ most_points }
    ensures line { OnOk result (Grows (string_bytes text.old) (string_bytes text.new) (node_line seed i ∷ [])) }
    ensures short { OnOk result (length (string_bytes text.new) ≤ length (string_bytes text.old) + 40) }
{
    let x = coordinate(seed, 2 * i - 1);
    let y = coordinate(seed, 2 * i);
    write!(text, "{i} {x} {y}\n")
}

// The coordinate at a place.
fn coordinate(seed: u32, place: u32) -> u32
    ensures { result ≡ coordinate seed place }
{
    mixed(2_654_435_769u32.wrapping_mul(seed).wrapping_add(place)) >> 12
}

// A word whose bits each depend on all bits of this one.
#[tactic(auto, unfolding(crate::specs::Makes::mixed))]
fn mixed(word: u32) -> u32
    ensures { result ≡ mixed word }
{
    let first = 2_146_121_005u32.wrapping_mul(xor_shift(word, 16));
    let second = 2_221_713_035u32.wrapping_mul(xor_shift(first, 15));
    xor_shift(second, 16)
}

fn xor_shift(word: u32, places: u32) -> u32
    requires { places < 32 }
    ensures { result ≡ xor_shift places word }
{
    word ^ (word >> places)
}
