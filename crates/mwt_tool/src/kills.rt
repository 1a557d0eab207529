// The text of killed edges.
ghost use Rattle.std.specs.Prelude.{◌≡◌, ◌<◌, [], ◌∷◌, ◌++◌, IfOk, OnOk, length, map, decimal};
ghost use Rattle.lmt_network.specs.Network.{IsNetwork};
ghost use Rattle.cert_text.specs.Texts.{Grows, edge_fields, spaced};
ghost use Rattle.mwt_tool.specs.Kills.{is_killed, kill_fields, kill_text, killed};

use crate::summary::write_count;
use exact_predicates::Edge;
use itoa::Buffer;
use lmt_network::{Network, Ranks};
use mwt_base::NoMemory;
use std::alloc::{AllocError, Global};

/// The killed edges with their ranks, after the number of candidate edges and their own number.
pub fn kill_text(alloc: Global, net: &Network, ranks: &Ranks) -> Result<Vec<u8>, NoMemory>
    requires { length ranks.now ≡ length net.now.edges }
    ensures text { IfOk result (λ text. text.items ≡ kill_text net.now ranks.now) }
    ensures valid { OnOk result (IsNetwork net.now) }
{
    let mut text = Vec::new(alloc);
    text.extend_from_slice(b"mwt-kills 1\n")?;
    write_count(&mut text, "candidates", net.edges())?;
    write_count(&mut text, "killed", killed(ranks))?;
    write_kills(&mut text, net, ranks)?;
    text.extend_from_slice(b"end\n")?;
    Ok(text)
}

fn is_killed(ranks: &Ranks, e: u32) -> bool
    requires { e < length ranks.now }
    ensures { result ≡ is_killed ranks.now e }
{
    ranks.get(e) != 0
}

// How many edges are killed.
fn killed(ranks: &Ranks) -> u32
    ensures { result ≡ length (killed ranks.now) }
{
    let mut count = 0;
    for e in 0..ranks.len() {
        if is_killed(ranks, e) {
            count += 1;
        }
    }
    count
}

// A line for each killed edge.
fn write_kills(text: &mut Vec<u8>, net: &Network, ranks: &Ranks) -> Result<(), AllocError>
    requires { length ranks.now ≡ length net.now.edges }
    ensures { OnOk result (Grows text.old.items text.new.items
        (map (λ e. spaced (kill_fields net.now ranks.now e)) (killed ranks.now))) }
{
    for e in 0..ranks.len() {
        if is_killed(ranks, e) {
            write_kill(text, net.edge(e), ranks.get(e))?;
        }
    }
    Ok(())
}

// The line of an edge with its rank.
fn write_kill(text: &mut Vec<u8>, edge: Edge, rank: u64) -> Result<(), AllocError>
    ensures { OnOk result (Grows text.old.items text.new.items
        (spaced (edge_fields edge ++ decimal rank ∷ []) ∷ [])) }
{
    text.extend_from_slice(Buffer::new().format(edge.a).as_bytes())?;
    text.push(b' ')?;
    text.extend_from_slice(Buffer::new().format(edge.b).as_bytes())?;
    text.push(b' ')?;
    text.extend_from_slice(Buffer::new().format(rank).as_bytes())?;
    text.push(b'\n')?;
    Ok(())
}
