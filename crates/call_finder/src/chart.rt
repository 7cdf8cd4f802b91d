//! The search by calls in frames.
//!
//! An item is a list of nodes that is left in a state of a call, which is a part of a whole state, with the least steps
//! from the start of the call to there. Its total is the least number of steps of a word through it: those before the
//! call, those to the item, and the sizes of what is left, in the call and behind it. Items are taken by their totals,
//! and of equal ones the newest first. An item that is taken waits for the call of its first node in the part of its
//! state in the node's frame, and continues at each of that call's exits, lifted to its state; one with no node left is
//! an exit of its own call.
ghost use Rattle.std.specs.Prelude.{OnOk};
ghost use Rattle.call_nodes.specs.Nodes.{AreNodes};

use crate::found::OUT_OF_REACH;
use crate::masks::Masks;
use crate::parts::{lifted_of, part_of};
use call_nodes::{CallNodes, Operator};
use call_table::{BlockLists, Exit, Site};
use htn_task::Task;
use indexmap::IndexSet;
use std::alloc::{AllocError, Global};

/// The place of the start among the calls, which is none of them: its items are the lists of the initial networks and
/// what is left of them.
const START: u32 = u32::MAX;

/// How many meetings with items take as long as to list a node.
const LISTING: u64 = 4;

/// A list of nodes that is left in a state of a call, which has a place among the calls.
#[derive(Clone, Copy, Debug, PartialEq, Eq, Hash)]
pub(crate) struct Point {
    pub call: u32,
    pub list: u32,
    pub state: u32,
}

/// What is known of an item.
#[derive(Clone, Copy, Drop)]
pub(crate) struct Item {
    /// The least steps from the start of the call that were found.
    pub cost: u32,
    pub is_taken: bool,
}

/// What is known of a call.
pub(crate) struct Called {
    /// The least steps before the call and behind it.
    pub around: u64,
    pub exits: Vec<Exit>,
    /// The places of the items that wait for its exits.
    waits: Vec<u32>,
}

impl Drop for Called {
    fn drop(self) {
        let Called {
            around: _,
            exits: _,
            waits: _,
        } = self;
    }
}

/// The search so far.
pub(crate) struct Chart {
    alloc: Global,
    /// The most steps that a word may have.
    most_steps: u32,
    /// What nodes, or anything below them, read or write.
    masks: Masks,
    /// The state and the node of each call.
    pub(crate) sites: IndexSet<Site>,
    pub(crate) calls: Vec<Called>,
    /// Where each item is.
    pub(crate) points: IndexSet<Point>,
    pub(crate) items: Vec<Item>,
    /// By total, the places of items that are not taken yet, with some that are.
    agenda: Vec<Vec<u32>>,
    /// All items of a lesser total are taken.
    total: u32,
    /// How often items were met, those past the bound too.
    work: u64,
    is_given_up: bool,
    is_finished: bool,
}

impl Drop for Chart {
    fn drop(self) {
        let Chart {
            alloc: _,
            most_steps: _,
            masks: _,
            sites: _,
            calls: _,
            points: _,
            items: _,
            agenda: _,
            total: _,
            work: _,
            is_given_up: _,
            is_finished: _,
        } = self;
    }
}

/// How far a search has come.
#[derive(Clone, Copy, Debug)]
pub enum Progress {
    /// Items are left.
    Unfinished,
    /// No word is within the bound, or a network was met that is not totally ordered.
    Failed,
    /// The least word has this many steps.
    Finished(u32),
}

/// A place as a number of 32 bits.
fn number_at(place: usize) -> Result<u32, AllocError> {
    match u32::try_from(place) {
        Ok(number) => Ok(number),
        Err(_) => Err(AllocError),
    }
}

impl Chart {
    /// No item is met. A word may have this many steps at most.
    pub(crate) fn new(alloc: Global, steps: u32, masks: Masks) -> Chart {
        Chart {
            alloc,
            most_steps: steps.min(OUT_OF_REACH - 1),
            masks,
            sites: IndexSet::new(alloc),
            calls: Vec::new(alloc),
            points: IndexSet::new(alloc),
            items: Vec::new(alloc),
            agenda: Vec::new(alloc),
            total: 0,
            work: 0,
            is_given_up: false,
            is_finished: false,
        }
    }

    /// How much was done.
    pub(crate) fn work(&self) -> u64 {
        self.work
    }

    /// No word has fewer steps.
    pub(crate) fn total(&self) -> u32 {
        self.total
    }

    /// The least steps before a call and behind it: none of the start.
    fn around(&self, call: u32) -> u64 {
        match self.calls.get(call as usize) {
            Some(called) => called.around,
            None => 0,
        }
    }

    /// Notes that an item is to be taken at a total.
    fn plan(&mut self, item: u32, total: u32) -> Result<(), AllocError> {
        let place = total as usize;
        for _ in self.agenda.len()..=place {
            self.agenda.push(Vec::new(self.alloc))?;
        }
        if let Some(items) = self.agenda.get_mut(place) {
            items.push(item)?;
        }
        Ok(())
    }

    /// Meets an item after some steps of its call, unless its total is past the bound.
    fn meet(&mut self, lists: &BlockLists, point: Point, cost: u32) -> Result<(), AllocError> {
        self.work = self.work.saturating_add(1);
        let inside = u64::from(cost).saturating_add(lists.nodes(point.list));
        let sum = self.around(point.call).saturating_add(inside);
        let total = u32::try_from(sum).unwrap_or(u32::MAX);
        if total > self.most_steps {
            return Ok(());
        }
        let Some(place) = self.improved(point, cost)? else {
            return Ok(());
        };
        self.plan(place, total)
    }

    /// The place of an item that is to be taken with this cost; none where it was taken, or costs no more so far.
    fn improved(&mut self, point: Point, cost: u32) -> Result<Option<u32>, AllocError> {
        let Some(place) = self.points.get_index_of(&point) else {
            let place = number_at(self.items.len())?;
            self.points.insert(point)?;
            let is_taken = false;
            self.items.push(Item { cost, is_taken })?;
            return Ok(Some(place));
        };
        let Some(item) = self.items.get_mut(place) else {
            return Ok(None);
        };
        if item.is_taken || item.cost <= cost {
            return Ok(None);
        }
        item.cost = cost;
        Ok(Some(number_at(place)?))
    }

    /// The item at a place with its cost.
    fn item(&self, place: u32) -> Option<(Point, u32)> {
        let Some(point) = self.points.get_index(place as usize) else {
            return None;
        };
        let Some(item) = self.items.get(place as usize) else {
            return None;
        };
        Some((*point, item.cost))
    }

    /// The part of a state in which a call begins; that of none where no call has the place.
    fn part(&self, call: u32) -> u32 {
        match self.sites.get_index(call as usize) {
            Some(site) => site.state,
            None => u32::MAX,
        }
    }

    /// Continues with an item that waited for its first node, at an exit of that, which began in a part.
    fn go_on(
        &mut self,
        task: &Task,
        nodes: &mut CallNodes<'_>,
        item: u32,
        part: u32,
        exit: Exit,
    ) -> Result<(), AllocError>
        requires { AreNodes task.now nodes.old }
        ensures { OnOk result (AreNodes task.now nodes.new) }
    {
        let Some((point, cost)) = self.item(item) else {
            return Ok(());
        };
        let Some(link) = nodes.lists().link(point.list) else {
            return Ok(());
        };
        let site = Site {
            state: point.state,
            number: link.first,
        };
        let state = if exit.state == part {
            point.state
        } else {
            lifted_of(task, nodes, &self.masks, site, exit.state)?
        };
        let cost = cost.saturating_add(exit.cost);
        let next = Point {
            call: point.call,
            list: link.rest,
            state,
        };
        self.meet(nodes.lists(), next, cost)
    }

    /// The place of an item that waits for a call.
    fn waiting(&self, call: u32, place: usize) -> Option<u32> {
        match self.calls.get(call as usize) {
            Some(called) => called.waits.get(place).copied(),
            None => None,
        }
    }

    /// An exit of a call.
    fn exit(&self, call: u32, place: usize) -> Option<Exit> {
        match self.calls.get(call as usize) {
            Some(called) => called.exits.get(place).copied(),
            None => None,
        }
    }

    /// Notes an exit of a call, and continues with all that waits for it.
    fn end(
        &mut self,
        task: &Task,
        nodes: &mut CallNodes<'_>,
        call: u32,
        exit: Exit,
    ) -> Result<(), AllocError>
        requires { AreNodes task.now nodes.old }
        ensures { OnOk result (AreNodes task.now nodes.new) }
    {
        let Some(called) = self.calls.get_mut(call as usize) else {
            return Ok(());
        };
        called.exits.push(exit)?;
        let count = called.waits.len();
        let part = self.part(call);
        for place in 0..count {
            let Some(item) = self.waiting(call, place) else {
                return Ok(());
            };
            self.go_on(task, nodes, item, part, exit)?;
        }
        Ok(())
    }

    /// Lets an item wait for a call, and continues with it at the exits that are known.
    fn wait(
        &mut self,
        task: &Task,
        nodes: &mut CallNodes<'_>,
        call: u32,
        item: u32,
    ) -> Result<(), AllocError>
        requires { AreNodes task.now nodes.old }
        ensures { OnOk result (AreNodes task.now nodes.new) }
    {
        let Some(called) = self.calls.get_mut(call as usize) else {
            return Ok(());
        };
        called.waits.push(item)?;
        let count = called.exits.len();
        let part = self.part(call);
        for place in 0..count {
            let Some(exit) = self.exit(call, place) else {
                return Ok(());
            };
            self.go_on(task, nodes, item, part, exit)?;
        }
        Ok(())
    }

    /// Meets the instances of a compound task, the last first, so that the first is taken first.
    fn meet_instances(
        &mut self,
        lists: &BlockLists,
        call: u32,
        state: u32,
        instances: &[u32],
    ) -> Result<(), AllocError> {
        for list in instances.iter().rev() {
            let list = *list;
            self.meet(lists, Point { call, list, state }, 1)?;
        }
        Ok(())
    }

    /// Begins a call: meets its instances, or notes what its step or action leads to.
    fn begin(
        &mut self,
        task: &Task,
        nodes: &mut CallNodes<'_>,
        site: Site,
        call: u32,
    ) -> Result<(), AllocError>
        requires { AreNodes task.now nodes.old }
        ensures { OnOk result (AreNodes task.now nodes.new) }
    {
        match nodes.operator(site.number) {
            Some(Operator::Task(instances)) => {
                self.meet_instances(nodes.lists(), call, site.state, instances)
            }
            Some(Operator::Step(_) | Operator::Action(_)) => self.perform(task, nodes, site, call),
            Some(Operator::Never) => Ok(()),
            Some(Operator::Unlisted | Operator::Partly) | None => {
                self.is_given_up = true;
                Ok(())
            }
        }
    }

    /// Notes what the step or the action of a call leads to.
    fn perform(
        &mut self,
        task: &Task,
        nodes: &mut CallNodes<'_>,
        site: Site,
        call: u32,
    ) -> Result<(), AllocError>
        requires { AreNodes task.now nodes.old }
        ensures { OnOk result (AreNodes task.now nodes.new) }
    {
        let Some(state) = nodes.perform(site.number, site.state)? else {
            return Ok(());
        };
        self.end(task, nodes, call, Exit { state, cost: 1 })
    }

    /// The place of the call of a node in a part of a state, which may begin only now, with the least steps around it.
    fn call_at(
        &mut self,
        task: &Task,
        nodes: &mut CallNodes<'_>,
        site: Site,
        around: u64,
    ) -> Result<u32, AllocError>
        requires { AreNodes task.now nodes.old }
        ensures { OnOk result (AreNodes task.now nodes.new) }
    {
        if let Some(place) = self.sites.get_index_of(&site) {
            let call = number_at(place)?;
            return Ok(call);
        }
        let before = nodes.nodes().len();
        nodes.list_task(self.alloc, task, site.number)?;
        let listed = nodes.nodes().len().saturating_sub(before) as u64;
        self.work = self.work.saturating_add(listed.saturating_mul(LISTING));
        let call = number_at(self.calls.len())?;
        let called = Called {
            around,
            exits: Vec::new(self.alloc),
            waits: Vec::new(self.alloc),
        };
        self.sites.insert(site)?;
        self.calls.push(called)?;
        self.begin(task, nodes, site, call)?;
        Ok(call)
    }

    /// Lets an item wait for the call of its first node.
    fn wait_for(
        &mut self,
        task: &Task,
        nodes: &mut CallNodes<'_>,
        item: u32,
        at: Site,
        around: u64,
    ) -> Result<(), AllocError>
        requires { AreNodes task.now nodes.old }
        ensures { OnOk result (AreNodes task.now nodes.new) }
    {
        let part = part_of(self.alloc, task, nodes, &self.masks, at)?;
        let site = Site {
            state: part,
            number: at.number,
        };
        let call = self.call_at(task, nodes, site, around)?;
        self.wait(task, nodes, call, item)?;
        Ok(())
    }

    /// Takes an item at a place with this total, unless it was taken before.
    fn take(
        &mut self,
        task: &Task,
        nodes: &mut CallNodes<'_>,
        place: u32,
        total: u32,
    ) -> Result<(), AllocError>
        requires { AreNodes task.now nodes.old }
        ensures { OnOk result (AreNodes task.now nodes.new) }
    {
        let Some((point, cost)) = self.taken(place) else {
            return Ok(());
        };
        let Some(link) = nodes.lists().link(point.list) else {
            let state = point.state;
            if point.call == START {
                self.is_finished = self.is_finished || is_goal(nodes, state);
                return Ok(());
            }
            self.end(task, nodes, point.call, Exit { state, cost })?;
            return Ok(());
        };
        let inside = link.nodes.saturating_sub(nodes.lists().nodes(link.rest));
        let at = Site {
            state: point.state,
            number: link.first,
        };
        let around = u64::from(total).saturating_sub(inside);
        self.wait_for(task, nodes, place, at, around)?;
        Ok(())
    }

    /// The item at a place with its cost, which is now taken; none where it was taken before.
    fn taken(&mut self, place: u32) -> Option<(Point, u32)> {
        let Some(item) = self.items.get_mut(place as usize) else {
            return None;
        };
        if item.is_taken {
            return None;
        }
        item.is_taken = true;
        self.item(place)
    }

    /// The place of the newest item that is to be taken at a total.
    fn next(&mut self, total: u32) -> Option<u32> {
        match self.agenda.get_mut(total as usize) {
            Some(items) => items.pop(),
            None => None,
        }
    }

    /// Takes items of a total, with those that are met on the way, while there are some and no more was done than this.
    fn take_all(
        &mut self,
        task: &Task,
        nodes: &mut CallNodes<'_>,
        total: u32,
        most_work: u64,
    ) -> Result<(), AllocError>
        requires { AreNodes task.now nodes.old }
        ensures { OnOk result (AreNodes task.now nodes.new) }
    {
        for _ in 0..u64::MAX {
            if self.is_given_up || self.work > most_work {
                return Ok(());
            }
            let Some(place) = self.next(total) else {
                return Ok(());
            };
            self.take(task, nodes, place, total)?;
        }
        Ok(())
    }

    /// The masks of nodes.
    pub(crate) fn into_masks(self) -> Masks {
        let Chart {
            alloc: _,
            most_steps: _,
            masks,
            sites: _,
            calls: _,
            points: _,
            items: _,
            agenda: _,
            total: _,
            work: _,
            is_given_up: _,
            is_finished: _,
        } = self;
        masks
    }

    /// Meets the lists of the start in the initial state, the last first.
    pub(crate) fn start(&mut self, lists: &BlockLists, starts: &[u32]) -> Result<(), AllocError> {
        for list in starts.iter().rev() {
            let point = Point {
                call: START,
                list: *list,
                state: 0,
            };
            self.meet(lists, point, 0)?;
        }
        Ok(())
    }

    /// Continues until a word from a list of the start in the initial state to no node with the goal true is found, or
    /// more was done than this. All items of the total of that word or a lesser one are taken then.
    pub(crate) fn advance(
        &mut self,
        task: &Task,
        nodes: &mut CallNodes<'_>,
        most_work: u64,
    ) -> Result<Progress, AllocError>
        requires { AreNodes task.now nodes.old }
        ensures { OnOk result (AreNodes task.now nodes.new) }
    {
        for total in self.total..=self.most_steps {
            self.total = total;
            self.take_all(task, nodes, total, most_work)?;
            if self.is_given_up {
                return Ok(Progress::Failed);
            }
            if self.work > most_work {
                return Ok(Progress::Unfinished);
            }
            if self.is_finished {
                return Ok(Progress::Finished(total));
            }
        }
        Ok(Progress::Failed)
    }
}

/// Whether the goal holds in the state of a number.
pub(crate) fn is_goal(nodes: &CallNodes<'_>, state: u32) -> bool {
    match nodes.states().get(state as usize) {
        Some(state) => nodes.is_goal(state),
        None => false,
    }
}
