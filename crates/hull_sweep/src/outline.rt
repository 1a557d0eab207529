// The hull that the two chains make.
ghost use Rattle.std.specs.Prelude.{◌≤◌, length, IfOk};
ghost use Rattle.hull_sweep.specs.Swept.{IsOutline};

use mwt_base::NoMemory;

/// The lower chain up, and then the inner places of the upper chain down.
pub(crate) fn outline(lower: Vec<u32>, upper: &[u32]) -> Result<Vec<u32>, NoMemory>
    requires { 2 ≤ length upper.now }
    ensures { IfOk result (λ hull. IsOutline lower.items upper.now hull.items) }
{
    let mut hull = lower;
    for i in (1..upper.len() - 1).rev() {
        hull.push(upper[i])?;
    }
    Ok(hull)
}
