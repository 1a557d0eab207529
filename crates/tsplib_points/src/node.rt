// Node lines.
ghost use Rattle.std.specs.Prelude.{◌<◌, ◌^◌, length};
ghost use Rattle.tsplib_points.specs.Numbers.{small_number};
ghost use Rattle.tsplib_points.specs.Real.{real_of};
ghost use Rattle.tsplib_points.specs.Nodes.{node_of, node_from};
ghost use Rattle.tsplib_points.specs.Gathering.{ReadsNode};

use crate::decimal::Decimal;
use crate::lines::Words;
use crate::numbers::small_number;
use crate::reals::{Read, real};
use crate::reason::Reason;

/// What is kept of a node, with the number of its line.
#[derive(Clone, Copy)]
pub struct KeptNode {
    pub line: u32,
    pub number: u32,
    pub x: Decimal,
    pub y: Decimal,
}

// Reads the three fields of a node line.
fn fields(line: u32, number: &[u8], x: &[u8], y: &[u8]) -> Result<KeptNode, Reason>
    requires x_in { length x.now < 2 ^ 32 }
    requires y_in { length y.now < 2 ^ 32 }
    ensures { ReadsNode result (node_from line (small_number number.now) (real_of x.now) (real_of y.now)) }
{
    let Some(number) = small_number(number) else {
        return Err(Reason::CoordLine);
    };
    match real(x) {
        Read::NotReal => Err(Reason::CoordLine),
        Read::NotWhole => match real(y) {
            Read::NotReal => Err(Reason::CoordLine),
            Read::NotWhole => Err(Reason::NotWhole),
            Read::Kept(_) => Err(Reason::NotWhole),
        },
        Read::Kept(x) => match real(y) {
            Read::NotReal => Err(Reason::CoordLine),
            Read::NotWhole => Err(Reason::NotWhole),
            Read::Kept(y) => Ok(KeptNode { line, number, x, y }),
        },
    }
}

/// Reads a node line: three words, a number and two reals that are whole at 10^6.
pub fn node(line: u32, text: &[u8]) -> Result<KeptNode, Reason>
    requires { length text.now < 2 ^ 32 }
    ensures { ReadsNode result (node_of (record { number = line; text = text.now })) }
{
    let mut words = Words::of(text);
    let Some(number) = words.next() else {
        return Err(Reason::CoordLine);
    };
    let Some(x) = words.next() else {
        return Err(Reason::CoordLine);
    };
    let Some(y) = words.next() else {
        return Err(Reason::CoordLine);
    };
    match words.next() {
        Some(_) => Err(Reason::CoordLine),
        None => fields(line, number, x, y),
    }
}
