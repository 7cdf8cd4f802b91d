//! A histogram: how far past the bound the pruned configurations of a search are.
ghost use Rattle.std.specs.Prelude.{◌≡◌, ℕ, ◌+◌, ◌-◌, ◌^◌, ◌<◌, ◌≤◌, IfNone, IfSome, min, take, slice_index, slice_set};
ghost use Rattle.std.specs.List.{sum};
ghost use Rattle.word_machine.specs.Contents.{slot_of};

/// Counts by distance past the bound: 1, 2 and so on, and in the last place all distances from 64 on.
#[derive(Clone, Copy, Debug)]
pub struct Overshoots {
    pub counts: [u32; 64],
}

impl Overshoots {
    pub fn new() -> Overshoots
        ensures { (d : ℕ) → sum (take d result.counts) ≡ 0 }
    {
        Overshoots { counts: [0; 64] }
    }

    /// Counts one more at this distance past the bound.
    pub fn add(&mut self, past: u64)
        ensures { self.new.counts ≡ slice_set self.old.counts (slot_of past) (min (slice_index self.old.counts (slot_of past) + 1) (2 ^ 32 - 1)) }
    {
        let slot = past.saturating_sub(1).min(63) as usize;
        self.counts[slot] = self.counts[slot].saturating_add(1);
    }

    /// The least distance within which `wanted` were counted; None if fewer were less than 64 past the bound.
    pub fn reach(&self, wanted: u64) -> Option<u64>
        ensures enough { IfSome result (λ d. wanted ≤ sum (take d self.now.counts)) }
        ensures least { IfSome result (λ r. (d : ℕ) → d < r → sum (take d self.now.counts) < wanted) }
        ensures few { IfNone result (sum (take 63 self.now.counts) < wanted) }
    {
        let mut total: u64 = 0;
        for distance in 0..64_u64 {
            if total >= wanted {
                return Some(distance);
            }
            total += u64::from(self.counts[distance as usize]);
        }
        None
    }
}
