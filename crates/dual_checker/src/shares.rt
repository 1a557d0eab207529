// What the sides of an edge give to their triangles.
ghost use Rattle.std.specs.Prelude.{◌≡◌, pos};
ghost use Rattle.dual_checker.specs.LiveLines.{AreSmall, line_shares};

use cert_text::PriceLine;

/// What the two sides of an edge give to their triangles, in millionths: `up` is the side from its lesser
/// end to its greater, `down` the other.
#[derive(Clone, Copy)]
pub struct Shares {
    pub up: i128,
    pub down: i128,
}

/// The shares of an edge of this weight, by its line.
pub fn line_shares(weight: u64, on_hull: bool, line: PriceLine) -> Shares
    ensures is { result ≡ line_shares (pos weight) on_hull line }
    ensures small { AreSmall result }
{
    let value = i128::from(line.value);
    let up = i128::from(weight) - value;
    if on_hull {
        Shares { up, down: up }
    } else {
        Shares {
            up: up - i128::from(line.left),
            down: value - i128::from(line.right),
        }
    }
}
