// The law that there is one ascent.
ghost use Rattle.price_ascent.specs.OneAscent.{OneAscent};

/// The law that the ascent with given anchored edges and so many sweeps gives each live edge one price,
/// and each of its sides one anchor. So the prices and the bound of a report are functions of the
/// network, its live edges, their skeleton and the number of sweeps. It does nothing: its contract says
/// so.
pub fn ascent_law()
    ensures { OneAscent }
{}
