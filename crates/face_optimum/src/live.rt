// Whether a triangle is live.
ghost use Rattle.std.specs.Prelude.{◌≡◌, ◌↔◌, ◌<◌, IsTrue, length};
ghost use Rattle.lmt_network.specs.Network.{IsNetwork};
ghost use Rattle.face_optimum.specs.Seats.{IsLiveTri};

use lmt_network::{Flags, Network};

/// Whether the three sides of the triangle are live.
pub(crate) fn is_live(net: &Network, flags: &Flags, t: u32) -> bool
    requires network { IsNetwork net.now }
    requires t_in { t < length net.now.tris }
    requires one_each { length flags.now ≡ length net.now.edges }
    ensures { IsTrue result ↔ IsLiveTri net.now flags.now t }
{
    let [ab, bc, ca] = net.sides(t);
    if !flags.live(ab) {
        return false;
    }
    if !flags.live(bc) {
        return false;
    }
    flags.live(ca)
}
