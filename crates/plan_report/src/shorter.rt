//! Causes of which only the first numbers are shown.

ghost use Rattle.std.specs.Prelude.{◌≡◌, ◌-◌, length, take};
ghost use Rattle.plan_causes.specs.Reasons.{AreOnce};
ghost use Rattle.plan_report.specs.Shorter as spec;

use plan_causes::{Cause, WrongIds};

/// Cuts a list behind its first numbers, and returns how many more there may be behind it.
fn cut(numbers: &mut Vec<u64>, most: usize) -> usize
    ensures numbers { numbers.new.items ≡ take most numbers.old.items }
    ensures rest { result ≡ most - length numbers.old.items }
{
    let rest = most.saturating_sub(numbers.len());
    numbers.truncate(most);
    rest
}

/// How many numbers there are, as far as 64 bits hold it.
fn count(ids: &WrongIds) -> usize
    ensures { result ≡ spec.count_of ids.now }
{
    let listed = ids.listed_twice.len() + ids.undefined.len();
    let unlisted = ids.unlisted.len();
    ids.defined_twice
        .len()
        .saturating_add(listed)
        .saturating_add(unlisted)
}

/// Leaves the first numbers.
fn cut_ids(ids: &mut WrongIds, most: usize)
    ensures { spec.AreFirst most ids.old ids.new }
{
    let rest = cut(&mut ids.defined_twice, most);
    let rest = cut(&mut ids.listed_twice, rest);
    let rest = cut(&mut ids.undefined, rest);
    cut(&mut ids.unlisted, rest);
}

/// Leaves at most `most` of the numbers of lines that are wrong, and returns how many are left out. Any other cause is
/// unchanged.
pub(crate) fn shorten(cause: &mut Cause, most: usize) -> usize
    ensures shorter { spec.IsShorter most cause.old cause.new result }
    ensures once { AreOnce cause.old → AreOnce cause.new }
{
    match cause {
        Cause::Structure(ids, _) => {
            let left = count(ids).saturating_sub(most);
            cut_ids(ids, most);
            left
        }
        _ => 0,
    }
}
