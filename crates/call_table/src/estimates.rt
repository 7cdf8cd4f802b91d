//! Values of lists of blocks, checked against a table.
ghost use Rattle.std.specs.Prelude.{◌≡◌, ◌≤◌, ◌+◌, All, IfSome, IsTrue};
ghost use Rattle.call_table.specs.Estimates.{AreEstimates, IsSupported, ends_in, stored_at, value_at};

use crate::call::{CallTable, Exit};
use crate::lists::BlockLists;
use crate::site::Site;
use indexmap::IndexMap;

/// Whether the goal may hold in a state.
fn may_end(ends: &[bool], state: u32) -> bool
    ensures { result ≡ ends_in ends.now state }
{
    match ends.get(state as usize) {
        Some(end) => *end,
        None => true,
    }
}

/// The value of a list in a state; where it has none, a lower bound on the nodes of its blocks.
pub fn value_of(lists: &BlockLists, values: &IndexMap<Site, u32>, list: u32, state: u32) -> u64
    ensures stored { IfSome (stored_at values.now list state) (λ v. result ≡ v) }
    ensures least { result ≤ value_at lists.now values.now list state }
{
    let site = Site {
        state,
        number: list,
    };
    match values.get(&site) {
        None => lists.nodes(list),
        Some(value) => u64::from(*value),
    }
}

/// Whether a value is no more than what follows at each exit, with the blocks of a list behind.
fn is_within_exits(
    lists: &BlockLists,
    values: &IndexMap<Site, u32>,
    exits: &[Exit],
    rest: u32,
    value: u64,
) -> bool
    ensures { IsTrue result → All (λ e. value ≤ e.cost + value_at lists.now values.now rest e.state) exits.now }
{
    for exit in exits {
        let onward = value_of(lists, values, rest, exit.state);
        if value > u64::from(exit.cost).saturating_add(onward) {
            return false;
        }
    }
    true
}

/// Whether the value of a list in a state follows from the values of shorter lists.
fn is_supported(
    table: &CallTable,
    lists: &BlockLists,
    ends: &[bool],
    cap: u32,
    values: &IndexMap<Site, u32>,
    site: Site,
    value: u32,
) -> bool
    ensures { IsTrue result → IsSupported lists.now table.now ends.now cap values.now site value }
{
    let Some(link) = lists.link(site.number) else {
        return value == 0 || value <= cap && !may_end(ends, site.state);
    };
    let value = u64::from(value);
    if value <= lists.nodes(site.number) {
        return true;
    }
    let first = Site {
        state: site.state,
        number: link.first,
    };
    let Some(call) = table.calls.get(&first) else {
        return false;
    };
    let floor = u64::from(call.floor).saturating_add(lists.nodes(link.rest));
    value <= floor && is_within_exits(lists, values, &call.exits, link.rest, value)
}

/// Whether no value of a list in a state is more than the estimate by a table. The values may be found in any way: each
/// is compared with what follows from the values of shorter lists, at the exits of the call of its first block. It
/// takes time linear in the values and their exits, and no memory. `ends` says of each state whether the goal holds
/// there, and `cap` is the estimate where it doesn't and nothing is left.
pub fn are_estimates(
    table: &CallTable,
    lists: &BlockLists,
    ends: &[bool],
    cap: u32,
    values: &IndexMap<Site, u32>,
) -> bool
    ensures { IsTrue result → AreEstimates lists.now table.now ends.now cap values.now }
{
    for k in 0..values.len() {
        let Some((site, value)) = values.get_index(k) else {
            return false;
        };
        if !is_supported(table, lists, ends, cap, values, *site, *value) {
            return false;
        }
    }
    true
}
