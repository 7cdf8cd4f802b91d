//! The table of calls in frames of a search that ended.

use crate::chart::{Called, Chart, Item, Point};
use call_nodes::{CallNodes, Operator};
use call_table::{Call, CallTable, Place, Rule, Site};
use indexmap::IndexMap;
use std::alloc::{AllocError, Global};
use std::mem;

/// The rules of a compound task's call: a list for each instance, in the same state.
fn rules_of(alloc: Global, state: u32, instances: &[u32]) -> Result<Vec<Rule>, AllocError> {
    let mut rules = Vec::with_capacity(alloc, instances.len())?;
    for list in instances {
        let blocks = *list;
        rules.push(Rule { state, blocks })?;
    }
    Ok(rules)
}

/// The call of a step or an action, which leads to one exit or to none: it has no other end, so its floor is as great
/// as can be.
fn performed(alloc: Global, called: &Called) -> Result<Call, AllocError> {
    let exits = Vec::from_slice(alloc, &called.exits)?;
    let mut rules = Vec::new(alloc);
    let mut places = Vec::new(alloc);
    for exit in &called.exits {
        let state = exit.state;
        rules.push(Rule { state, blocks: 0 })?;
        places.push(Place {
            state,
            blocks: 0,
            distance: exit.cost,
        })?;
    }
    Ok(Call {
        rules,
        exits,
        floor: u32::MAX,
        places,
    })
}

/// What is known of a call, with the places of its items, once all items of a lesser total than `top` were taken.
fn call_of(
    alloc: Global,
    nodes: &CallNodes<'_>,
    site: &Site,
    called: &Called,
    places: Vec<Place>,
    top: u32,
) -> Result<Call, AllocError> {
    let Some(Operator::Task(instances)) = nodes.operator(site.number) else {
        return performed(alloc, called);
    };
    let around = u32::try_from(called.around).unwrap_or(u32::MAX);
    Ok(Call {
        rules: rules_of(alloc, site.state, instances)?,
        exits: Vec::from_slice(alloc, &called.exits)?,
        floor: top.saturating_sub(around),
        places,
    })
}

/// Adds an item to the places of its call, if it was taken.
fn add_place(places: &mut [Vec<Place>], point: &Point, item: &Item) -> Result<(), AllocError> {
    if !item.is_taken {
        return Ok(());
    }
    if let Some(places) = places.get_mut(point.call as usize) {
        places.push(Place {
            state: point.state,
            blocks: point.list,
            distance: item.cost,
        })?;
    }
    Ok(())
}

/// By call, the places of the items that were taken.
fn places_of(alloc: Global, chart: &Chart) -> Result<Vec<Vec<Place>>, AllocError> {
    let mut places = Vec::with_capacity(alloc, chart.calls.len())?;
    for _ in 0..chart.calls.len() {
        places.push(Vec::new(alloc))?;
    }
    for item in 0..chart.items.len() {
        if let Some(point) = chart.points.get_index(item) {
            add_place(&mut places, point, &chart.items[item])?;
        }
    }
    Ok(places)
}

/// Takes the places of a call.
fn take_places(alloc: Global, places: &mut [Vec<Place>], call: usize) -> Vec<Place> {
    match places.get_mut(call) {
        Some(own) => mem::replace(own, Vec::new(alloc)),
        None => Vec::new(alloc),
    }
}

/// The table of a search that took all items of a lesser total than `top`.
pub(crate) fn table_of(
    alloc: Global,
    nodes: &CallNodes<'_>,
    chart: &Chart,
    top: u32,
) -> Result<CallTable, AllocError> {
    let mut places = places_of(alloc, chart)?;
    let mut calls = IndexMap::with_capacity(alloc, chart.calls.len())?;
    for call in 0..chart.calls.len() {
        if let Some(site) = chart.sites.get_index(call) {
            let own = take_places(alloc, &mut places, call);
            let known = call_of(alloc, nodes, site, &chart.calls[call], own, top)?;
            calls.insert(*site, known)?;
        }
    }
    Ok(CallTable { calls })
}
