// The live lines of a report.
ghost use Rattle.std.specs.Prelude.{◌≡◌, ◌<◌, IfOk, length};
ghost use Rattle.lmt_network.specs.Network.{edge_at};
ghost use Rattle.lmt_network.specs.Prices.{is_on_hull};
ghost use Rattle.price_ascent.specs.Entries.{live_of};
ghost use Rattle.mwt_tool.specs.PriceLines.{kind_of, line_at, price_lines};

use cert_text::{LineKind, PriceLine, PriceLines};
use lmt_network::{Flags, Network};
use mwt_base::NoMemory;
use price_ascent::Prices;
use std::alloc::Global;

/// The lines of the live edges, in their order.
pub fn price_lines(
    alloc: Global,
    net: &Network,
    flags: &Flags,
    prices: &Prices,
) -> Result<PriceLines, NoMemory>
    requires one_each { length prices.now ≡ length net.now.edges }
    requires live { flags.now ≡ live_of prices.now }
    ensures { IfOk result (λ lines. lines ≡ price_lines net.now prices.now) }
{
    let mut lines = Vec::new(alloc);
    for e in 0..net.edges() {
        if flags.live(e) {
            lines.push(price_line(net, prices, e))?;
        }
    }
    Ok(PriceLines::of(lines))
}

// The line of an edge.
fn price_line(net: &Network, prices: &Prices, e: u32) -> PriceLine
    requires e_in { e < length net.now.edges }
    requires one_each { length prices.now ≡ length net.now.edges }
    ensures { result ≡ line_at net.now prices.now e }
{
    PriceLine {
        edge: net.edge(e),
        kind: kind_of(is_on_hull(net, e), prices.is_anchored(e)),
        value: prices.value(e),
        left: prices.left(e),
        right: prices.right(e),
    }
}

fn is_on_hull(net: &Network, e: u32) -> bool
    requires { e < length net.now.edges }
    ensures { result ≡ is_on_hull net.now.hull (edge_at net.now e).a (edge_at net.now e).b }
{
    net.is_hull(e)
}

fn kind_of(on_hull: bool, anchored: bool) -> LineKind
    ensures { result ≡ kind_of on_hull anchored }
{
    if on_hull {
        LineKind::Hull
    } else if anchored {
        LineKind::Skeleton
    } else {
        LineKind::Inner
    }
}
