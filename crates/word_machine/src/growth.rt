//! How the bounds of searches grow.
ghost use Rattle.std.specs.Prelude.{◌≡◌, ◌+◌, ◌-◌, ◌^◌, ◌<◌, ◌≤◌, max};

// The longest step of a bound: past it nearly all configurations are admitted, so the next bound may admit all.
const LONGEST_STEP: u64 = 15;

/// The bound of the next search.
#[derive(Clone, Copy, Debug)]
pub struct Growth {
    /// No word finishes in fewer steps.
    pub least: u64,
    /// The bound of the next search.
    pub nodes: u64,
    step: u64,
    pub ghost rising: { least ≤ nodes },
}

impl Growth {
    /// The bound of the first search: the least number of steps that a word may have, or `first` where that is more.
    pub fn from(least: u64, first: u64) -> Growth
        ensures { result.least ≡ least }
    {
        Growth {
            least,
            nodes: least.max(first),
            step: 0,
        }
    }

    /// Sets the next bound after a search within this one, where no word finishes in fewer steps than `past`: the bound
    /// that admits about as many more configurations (`wide`), where as many were pruned near this one, and else a
    /// bound further on by increasing steps.
    pub fn after(self, bound: u64, past: u64, wide: Option<u64>) -> Growth
        requires { bound < 2 ^ 64 - 1 }
        ensures { result.least ≡ max past (bound + 1) }
    {
        let least = past.max(bound + 1);
        let nodes = match wide {
            Some(wide) => wide.max(least),
            None => least.saturating_add(self.step).max(least),
        };
        let step = next_step(wide, self.step);
        Growth { least, nodes, step }
    }
}

// The step of the bound, the next time that few configurations were pruned near it: nothing at first, then about four
// times as much each time, and past `LONGEST_STEP` the greatest number.
fn next_step(wide: Option<u64>, step: u64) -> u64 {
    match wide {
        Some(_) => 0,
        None if step < LONGEST_STEP => step.saturating_mul(4).saturating_add(3),
        None => u64::MAX,
    }
}
