//! How many workers share some work.
ghost use Rattle.std.specs.Prelude.{◌≡◌, ◌<◌, ◌≤◌, ◌/◌, max, min};

/// How many of the workers share some work, if each is to have at least a given number of items; at least one.
pub fn workers_for(count: usize, least: usize, workers: usize) -> usize
    requires least { 0 < least }
    requires workers { 0 < workers }
    ensures value { result ≡ max 1 (min workers (count / least)) }
    ensures some { 0 < result }
    ensures most { result ≤ workers }
{
    workers.min(count / least).max(1)
}
