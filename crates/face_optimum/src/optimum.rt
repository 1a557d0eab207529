// The optimum on all faces.
ghost use Rattle.std.specs.Prelude.{IfOk};
ghost use Rattle.lmt_network.specs.Flags.{live_numbers};
ghost use Rattle.lmt_network.specs.Numbers.{AreLive};
ghost use Rattle.face_optimum.specs.Optimum.{IsFaceOptimum};
ghost use Rattle.face_optimum.specs.Sites.{IsSite, faces_of};

use crate::site::Site;
use exact_predicates::Tris;
use mwt_base::NoMemory;
use price_ascent::Prices;
use std::alloc::Global;

impl<'a> Site<'a> {
    // The best triangulation with live edges, and the prices that prove it.
    pub(crate) fn optimum(&self, alloc: Global) -> Result<(Tris, Prices), NoMemory>
        requires site { IsSite self.now }
        requires live { AreLive self.now.net.now (live_numbers self.now.flags.now) }
        ensures { IfOk result (λ r. IsFaceOptimum self.now.net.now self.now.flags.now self.now.skeleton.now (faces_of self.now) r.0 r.1) }
    {
        let parts = self.costs(alloc)?;
        let chosen = self.choose(alloc, &parts)?;
        let prices = self.prices(alloc, &parts.costs, &chosen.root_costs)?;
        let mut tris = chosen.tris;
        tris.sort_unstable();
        Ok((Tris::of(tris), prices))
    }
}
