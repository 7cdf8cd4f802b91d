//! Lists of nodes by number, equal ones once.
ghost use Rattle.std.specs.Prelude.{◌≡◌, ◌<◌, ◌++◌, ◌∷◌, [], IfOk, IfSome, OnOk, length};
ghost use Rattle.call_table.specs.Lists.{list_at};
ghost use Rattle.state_table.specs.Numberings.{IsExtension};

use crate::cell::Cell;
use call_table::{BlockLists, Link};
use indexmap::IndexMap;
use std::alloc::{AllocError, Global};
use std::marker::Model;

/// Nodes with their sizes, and lists of nodes, of which equal ones have one number. Number 0 is the empty list, and
/// so is each number that no list has.
pub struct ListTable {
    lists: BlockLists,
    /// The number of each list with some node, by its first node and the list of the others.
    numbers: IndexMap<Cell, u32>,
}

impl Drop for ListTable {
    fn drop(self) {
        let ListTable {
            lists: _,
            numbers: _,
        } = self;
    }
}

impl Model for ListTable {
    ghost use Rattle.call_table.specs.Lists.{Lists, lists_code};
    ghost use Rattle.call_nodes.specs.Numbered.{AreNumbered};

    ghost Value = { Lists };

    ghost coded = { lists_code };

    ghost view = { λ t. t.lists };

    ghost invariant = { λ t. AreNumbered t.lists t.numbers };
}

impl ListTable {
    /// No node, and the empty list alone.
    pub fn new(alloc: Global) -> ListTable
        ensures counts { result.counts ≡ [] }
        ensures lists { result.lists ≡ [] ∷ [] }
    {
        ListTable {
            lists: BlockLists::new(alloc),
            numbers: IndexMap::new(alloc),
        }
    }

    /// The lists by number, with the sizes of their nodes.
    pub fn lists(&self) -> &BlockLists
        ensures value { result.now ≡ self.now }
        ensures empty { list_at self.now 0 ≡ [] }
    {
        &self.lists
    }

    /// The number of a node that comes now, with its size. An error means that memory was refused or that there are
    /// 2^32 nodes.
    pub fn add_node(&mut self, size: u64) -> Result<u32, AllocError>
        ensures number { IfOk result (λ n. n ≡ length self.old.counts) }
        ensures counts { OnOk result (self.new.counts ≡ self.old.counts ++ size ∷ []) }
        ensures lists { self.new.lists ≡ self.old.lists }
    {
        let number = self.lists.add_block(size)?;
        Ok(number)
    }

    /// The number of a list, which is 0 where no list has this one.
    fn known(&self, number: u32) -> u32
        ensures list { list_at self.now result ≡ list_at self.now number }
        ensures known { result < length self.now.lists }
    {
        match self.lists.link(number) {
            None => 0,
            Some(_) => number,
        }
    }

    /// The number of a node before a list, which it may get only now. An error means that memory was refused or that
    /// there are 2^32 lists.
    pub fn before(&mut self, first: u32, rest: u32) -> Result<u32, AllocError>
        ensures list { IfOk result (λ n. list_at self.new n ≡ first ∷ list_at self.old rest) }
        ensures known { IfOk result (λ n. n < length self.new.lists) }
        ensures lists { IsExtension self.old.lists self.new.lists }
        ensures counts { self.new.counts ≡ self.old.counts }
    {
        let rest = self.known(rest);
        let cell = Cell { first, rest };
        if let Some(number) = self.numbers.get(&cell) {
            return Ok(*number);
        }
        let number = self.lists.add(first, rest)?;
        self.numbers.insert(cell, number)?;
        Ok(number)
    }

    /// The number of nodes before a list, which it may get only now.
    pub fn all_before(&mut self, nodes: Vec<u32>, rest: u32) -> Result<u32, AllocError>
        ensures list { IfOk result (λ n. list_at self.new n ≡ nodes.items ++ list_at self.old rest) }
        ensures known { IfOk result (λ n. n < length self.new.lists) }
        ensures lists { IsExtension self.old.lists self.new.lists }
        ensures counts { self.new.counts ≡ self.old.counts }
    {
        let mut left = nodes;
        let mut number = self.known(rest);
        while let Some(node) = left.pop() {
            number = self.before(node, number)?;
        }
        Ok(number)
    }

    /// The nodes of a list, from the first on.
    pub fn nodes_of(&self, alloc: Global, number: u32) -> Result<Vec<u32>, AllocError>
        ensures { IfOk result (λ nodes. nodes.items ≡ list_at self.now number) }
    {
        let mut nodes = Vec::new(alloc);
        let mut at = number;
        while let Some(Link { first, rest, .. }) = self.lists.link(at) {
            nodes.push(first)?;
            at = rest;
        }
        Ok(nodes)
    }

    /// The number of the nodes of one list before those of another, which it may get only now.
    pub fn append(&mut self, alloc: Global, front: u32, rest: u32) -> Result<u32, AllocError>
        ensures list { IfOk result (λ n. list_at self.new n ≡ list_at self.old front ++ list_at self.old rest) }
        ensures known { IfOk result (λ n. n < length self.new.lists) }
        ensures lists { IsExtension self.old.lists self.new.lists }
        ensures counts { self.new.counts ≡ self.old.counts }
    {
        let nodes = self.nodes_of(alloc, front)?;
        let list = self.all_before(nodes, rest)?;
        Ok(list)
    }

    /// The number of a node before a list. None where it has no number.
    fn number_before(&self, first: u32, rest: u32) -> Option<u32>
        ensures { IfSome result (λ n. list_at self.now n ≡ first ∷ list_at self.now rest) }
    {
        let rest = self.known(rest);
        let cell = Cell { first, rest };
        let number = self.numbers.get(&cell)?;
        Some(*number)
    }

    /// The number of the nodes of one list before those of another. None where it has no number.
    pub fn appended(&self, alloc: Global, front: u32, rest: u32) -> Result<Option<u32>, AllocError>
        ensures { IfOk result (λ o. IfSome o (λ n.
            list_at self.now n ≡ list_at self.now front ++ list_at self.now rest)) }
    {
        let mut left = self.nodes_of(alloc, front)?;
        let mut number = self.known(rest);
        while let Some(node) = left.pop() {
            let Some(longer) = self.number_before(node, number) else {
                return Ok(None);
            };
            number = longer;
        }
        Ok(Some(number))
    }
}
