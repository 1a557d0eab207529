// The sides of a triangle.
ghost use Rattle.std.specs.Prelude.{◌<◌, length};
ghost use Rattle.lmt_network.specs.Network.{IsNetwork};
ghost use Rattle.face_optimum.specs.Cuts.{AreLegs};

use lmt_network::Network;

// The numbers of the triangle's other two sides, in their order after its side e.
pub(crate) fn legs(net: &Network, t: u32, e: u32) -> (u32, u32)
    requires network { IsNetwork net.now }
    requires t_in { t < length net.now.tris }
    ensures legs { AreLegs net.now t e result.0 result.1 }
    ensures first_in { result.0 < length net.now.edges }
    ensures second_in { result.1 < length net.now.edges }
{
    let [ab, bc, ca] = net.sides(t);
    if ab == e {
        (bc, ca)
    } else if bc == e {
        (ca, ab)
    } else {
        (ab, bc)
    }
}
