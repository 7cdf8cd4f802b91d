//! The masks of nodes: what they, or anything below them, read or write.
ghost use Rattle.std.specs.Prelude.{OnOk};
ghost use Rattle.call_nodes.specs.Nodes.{AreNodes};

use crate::components::{Components, components_of};
use crate::found::OUT_OF_REACH;
use crate::reads::own_mask;
use call_nodes::{CallNodes, Operator};
use call_proof::{Frames, is_inside, united};
use htn_task::Task;
use indexmap::IndexSet;
use state_table::BitState;
use std::alloc::{AllocError, Global};

/// Masks by number, and that of each node. A node that has none has all atoms in its frame.
pub(crate) struct Masks {
    of: Vec<u32>,
    masks: IndexSet<BitState>,
}

impl Drop for Masks {
    fn drop(self) {
        let Masks { of: _, masks: _ } = self;
    }
}

/// Adds the nodes of a list, unless no word is so long.
fn add_nodes(nodes: &CallNodes<'_>, found: &mut Vec<u32>, list: u32) -> Result<(), AllocError> {
    let lists = nodes.lists();
    if lists.nodes(list) >= u64::from(OUT_OF_REACH) {
        return Ok(());
    }
    let mut at = list;
    for _ in 0..u64::MAX {
        let Some(link) = lists.link(at) else {
            break;
        };
        found.push(link.first)?;
        at = link.rest;
    }
    Ok(())
}

/// The nodes of lists that a word may have.
fn nodes_of(alloc: Global, nodes: &CallNodes<'_>, lists: &[u32]) -> Result<Vec<u32>, AllocError> {
    let mut found = Vec::new(alloc);
    for list in lists {
        add_nodes(nodes, &mut found, *list)?;
    }
    Ok(found)
}

/// The nodes of all instances of a node that a word may have; none for a step or an action.
fn nodes_below(alloc: Global, nodes: &CallNodes<'_>, node: u32) -> Result<Vec<u32>, AllocError> {
    match nodes.operator(node) {
        Some(Operator::Task(lists)) => nodes_of(alloc, nodes, lists),
        _ => Ok(Vec::new(alloc)),
    }
}

/// Meets the nodes of all instances of a node that a word may have.
fn meet_below(
    alloc: Global,
    nodes: &CallNodes<'_>,
    met: &mut IndexSet<u32>,
    node: u32,
) -> Result<(), AllocError> {
    let below = nodes_below(alloc, nodes, node)?;
    for inner in &below {
        met.insert(*inner)?;
    }
    Ok(())
}

/// Lists all compound tasks that a word may have below some nodes. Whether the nodes there are no more than a number.
fn list_all(
    alloc: Global,
    task: &Task,
    nodes: &mut CallNodes<'_>,
    first: &[u32],
    most: usize,
) -> Result<bool, AllocError>
    requires { AreNodes task.now nodes.old }
    ensures { OnOk result (AreNodes task.now nodes.new) }
{
    let mut met = IndexSet::new(alloc);
    for node in first {
        met.insert(*node)?;
    }
    for place in 0..most {
        if met.len() > most {
            return Ok(false);
        }
        let Some(node) = met.get_index(place).copied() else {
            return Ok(true);
        };
        nodes.list_task(alloc, task, node)?;
        meet_below(alloc, nodes, &mut met, node)?;
    }
    Ok(met.len() <= most)
}

/// Lists all compound tasks that a word may have below the nodes of some lists. Whether these nodes and those below are
/// no more than a number.
fn are_all_listed(
    alloc: Global,
    task: &Task,
    nodes: &mut CallNodes<'_>,
    starts: &[u32],
    most: usize,
) -> Result<bool, AllocError>
    requires { AreNodes task.now nodes.old }
    ensures { OnOk result (AreNodes task.now nodes.new) }
{
    let first = nodes_of(alloc, nodes, starts)?;
    let are_listed = list_all(alloc, task, nodes, &first, most)?;
    Ok(are_listed)
}

/// By node, the nodes of its instances that a word may have.
fn all_below(alloc: Global, nodes: &CallNodes<'_>) -> Result<Vec<Vec<u32>>, AllocError> {
    let count = nodes.nodes().len();
    let mut below = Vec::with_capacity(alloc, count)?;
    for place in 0..count {
        let Ok(node) = u32::try_from(place) else {
            return Err(AllocError);
        };
        below.push(nodes_below(alloc, nodes, node)?)?;
    }
    Ok(below)
}

/// Puts more into the mask at a place.
fn add_mask(masks: &mut [BitState], place: usize, more: &BitState) -> Result<(), AllocError> {
    let Some(mask) = masks.get_mut(place) else {
        return Ok(());
    };
    if !is_inside(more, mask) {
        *mask = united(mask, more)?;
    }
    Ok(())
}

/// Puts what is in the mask at one place into that at another.
fn spread(masks: &mut [BitState], inner: usize, outer: usize) -> Result<(), AllocError> {
    let Some(more) = masks.get(inner) else {
        return Ok(());
    };
    let Some(mask) = masks.get(outer) else {
        return Ok(());
    };
    if is_inside(more, mask) {
        return Ok(());
    }
    let both = united(mask, more)?;
    if let Some(mask) = masks.get_mut(outer) {
        *mask = both;
    }
    Ok(())
}

/// Puts what a node itself reads or writes, and the masks of the components below it, into the mask of its component.
fn fill(
    alloc: Global,
    task: &Task,
    nodes: &CallNodes<'_>,
    masks: &mut [BitState],
    below: &[u32],
    components: &Components,
    node: u32,
) -> Result<(), AllocError> {
    let place = components.number(node);
    if let Some(child) = nodes.nodes().get(node as usize) {
        let own = own_mask(alloc, task, nodes.atoms(), child)?;
        add_mask(masks, place, &own)?;
    }
    for inner in below {
        spread(masks, components.number(*inner), place)?;
    }
    Ok(())
}

/// The masks of components: the least with what each node of theirs reads or writes, and with those of the nodes of its
/// instances.
fn masks_by_component(
    alloc: Global,
    task: &Task,
    nodes: &CallNodes<'_>,
    below: &[Vec<u32>],
    components: &Components,
) -> Result<Vec<BitState>, AllocError> {
    let mut masks = Vec::with_capacity(alloc, components.count as usize)?;
    for _ in 0..components.count {
        masks.push(BitState::new(alloc))?;
    }
    for node in &components.order {
        if let Some(inner) = below.get(*node as usize) {
            fill(alloc, task, nodes, &mut masks, inner, components, *node)?;
        }
    }
    Ok(masks)
}

/// A mask of all atoms that have numbers.
fn full_mask(alloc: Global, nodes: &CallNodes<'_>) -> Result<BitState, AllocError> {
    let mut numbers = Vec::new(alloc);
    for place in 0..nodes.atoms().len() {
        let Ok(number) = u32::try_from(place) else {
            return Err(AllocError);
        };
        numbers.push(number)?;
    }
    BitState::new(alloc).changed(&[], &numbers)
}

/// The number of a mask, which it may get only now.
fn number_of(masks: &mut IndexSet<BitState>, mask: BitState) -> Result<u32, AllocError> {
    let (place, _) = masks.insert_full(mask)?;
    match u32::try_from(place) {
        Ok(number) => Ok(number),
        Err(_) => Err(AllocError),
    }
}

impl Masks {
    /// No node has a mask.
    pub(crate) fn none(alloc: Global) -> Masks {
        Masks {
            of: Vec::new(alloc),
            masks: IndexSet::new(alloc),
        }
    }

    /// Gives each node the mask of its component.
    fn add_all(
        &mut self,
        alloc: Global,
        masks: &[BitState],
        components: &[u32],
    ) -> Result<(), AllocError> {
        let mut numbers = Vec::with_capacity(alloc, masks.len())?;
        for mask in masks {
            numbers.push(number_of(&mut self.masks, mask.clone()?)?)?;
        }
        for component in components {
            let number = numbers.get(*component as usize).copied();
            self.of.push(number.unwrap_or(0))?;
        }
        Ok(())
    }

    /// The masks of all nodes that are known, if no more than a number are below some lists: all compound tasks there
    /// are listed. Else none has a mask. What no word may have is left out.
    pub(crate) fn of(
        alloc: Global,
        task: &Task,
        nodes: &mut CallNodes<'_>,
        starts: &[u32],
        most: usize,
    ) -> Result<Masks, AllocError>
        requires { AreNodes task.now nodes.old }
        ensures { OnOk result (AreNodes task.now nodes.new) }
    {
        if !are_all_listed(alloc, task, nodes, starts, most)? {
            return Ok(Masks::none(alloc));
        }
        let below = all_below(alloc, nodes)?;
        let components = components_of(alloc, &below)?;
        let masks = masks_by_component(alloc, task, nodes, &below, &components)?;
        let mut found = Masks::none(alloc);
        found.add_all(alloc, &masks, &components.numbers)?;
        Ok(found)
    }

    /// The mask of a node; none where all atoms are in its frame.
    pub(crate) fn mask(&self, node: u32) -> Option<&BitState> {
        let place = self.of.get(node as usize)?;
        self.masks.get_index(*place as usize)
    }

    /// The frames of all nodes that have numbers now.
    pub(crate) fn into_frames(
        self,
        alloc: Global,
        nodes: &CallNodes<'_>,
    ) -> Result<Frames, AllocError> {
        let Masks { mut of, mut masks } = self;
        let full = full_mask(alloc, nodes)?;
        let number = number_of(&mut masks, full)?;
        for _ in of.len()..nodes.nodes().len() {
            of.push(number)?;
        }
        let mut all = Vec::with_capacity(alloc, masks.len())?;
        for mask in masks.as_slice() {
            all.push(mask.clone()?)?;
        }
        Ok(Frames::new(of, all))
    }
}
