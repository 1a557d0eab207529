// The number of an edge that is there.
ghost use Rattle.std.specs.Prelude.{ℕ};
ghost use Rattle.lmt_network.specs.Numbers.{IsNumberOf};

use lmt_network::Network;

// The number of the network's edge with these ends.
pub fn number(net: &Network, u: u32, v: u32) -> u32
    requires { (e : ℕ) × IsNumberOf net.now u v e }
    ensures { IsNumberOf net.now u v result }
{
    net.edge_number(u, v).unwrap()
}
