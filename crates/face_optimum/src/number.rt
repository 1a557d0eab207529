// The number of an edge that is there.
ghost use Rattle.std.specs.Prelude.{◌≡◌};
ghost use Rattle.exact_predicates.specs.Candidates.{HasEdge};
ghost use Rattle.lmt_network.specs.Numbers.{IsNumberOf};

use lmt_network::Network;

/// The number of the network's edge with these ends.
pub(crate) fn number(net: &Network, u: u32, v: u32) -> u32
    requires { HasEdge net.now.edges u v }
    ensures { IsNumberOf net.now u v result }
{
    match net.edge_number(u, v) {
        Some(e) => e,
        None => unreachable!(),
    }
}
