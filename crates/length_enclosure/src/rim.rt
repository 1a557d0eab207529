// The pairs of a hull.
ghost use Rattle.std.specs.Prelude.{◌≡◌, ◌↔◌, ℕ, ◌+◌, ◌<◌, ◌≤◌, IsTrue, length, slice_index};
ghost use Rattle.exact_predicates.specs.Hull.{IsHullPair};
ghost use Rattle.length_enclosure.specs.Enclosure.{IsPeak};

// The first place at which the numbers stop rising.
pub fn peak(ring: &[u32]) -> usize
    requires { 0 < length ring.now }
    ensures within { result < length ring.now }
    ensures rises { (k : ℕ) → k < result → slice_index ring.now k < slice_index ring.now (k + 1) }
    ensures ends { result + 1 < length ring.now → slice_index ring.now (result + 1) ≤ slice_index ring.now result }
{
    let mut top = 0;
    while top + 1 < ring.len() && ring[top] < ring[top + 1] {
        top += 1;
    }
    top
}

// Whether `u` to `v`, which goes up, is a pair of the hull. Such a pair stands where the numbers of
// the hull rise, so `u` is found by bisection.
pub fn is_rising_pair(hull: &[u32], top: usize, u: u32, v: u32) -> bool
    requires peak { IsPeak hull.now top }
    requires up { u < v }
    ensures { IsTrue result ↔ IsHullPair hull.now u v }
{
    match hull[..top].binary_search(&u) {
        Ok(k) => hull[k + 1] == v,
        Err(_) => false,
    }
}
