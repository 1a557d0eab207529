// What a report says of the live edges.
ghost use Rattle.std.specs.Prelude.{◌≡◌, ◌*◌, pos, ◌≤ℤ◌, IfOk};
ghost use Rattle.mwt_base.specs.Limits.{most_anchor, most_edges};
ghost use Rattle.price_ascent.specs.Belonging.{BelongTo};

use crate::price_lines::price_lines;
use cert_text::PriceLines;
use exact_predicates::Edges;
use lmt_network::{Flags, Network};
use mwt_base::NoMemory;
use price_ascent::Prices;
use std::alloc::Global;

/// The live edges with their prices and anchors, their skeleton, and the bound that these prices give.
#[derive(Drop)]
pub struct Priced {
    pub live: PriceLines,
    pub skeleton: Edges,
    pub bound: i128,
}

impl Priced {
    ghost use Rattle.mwt_tool.specs.Priced.{ArePriced, HavePrices};

    /// The lines of these prices, with their bound.
    pub fn of(
        alloc: Global,
        net: &Network,
        flags: &Flags,
        skeleton: Edges,
        prices: &Prices,
    ) -> Result<Priced, NoMemory>
        requires { HavePrices net.now flags.now skeleton prices.now }
        ensures priced { IfOk result (λ part. ArePriced net.now flags.now prices.now part) }
        ensures same { IfOk result (λ part. part.skeleton ≡ skeleton) }
        ensures low { IfOk result (λ part. BelongTo net.now prices.now → pos 0 ≤ℤ part.bound) }
        ensures high { IfOk result (λ part. BelongTo net.now prices.now → part.bound ≤ℤ pos (2 * most_anchor * most_edges)) }
    {
        let live = price_lines(alloc, net, flags, prices)?;
        let bound = prices.bound(net);
        Ok(Priced {
            live,
            skeleton,
            bound,
        })
    }
}
