//! Lists of blocks by number.
ghost use Rattle.std.specs.Prelude.{◌≡◌, ◌<◌, ◌≤◌, ◌++◌, ◌∷◌, [], IfNone, IfOk, IfSome, OnErr, OnOk, get_or, length};
ghost use Rattle.call_table.specs.Lists.{IsLink, list_at, nodes_of};

use std::alloc::{AllocError, Global};
use std::marker::Model;

/// A list that is not empty: its first block, the number of the list of the others, and a lower bound on the number of
/// its nodes.
#[derive(Clone, Copy, Drop)]
pub struct Link {
    pub first: u32,
    pub rest: u32,
    pub nodes: u64,
}

/// Blocks, each with the number of its nodes, and lists of blocks. A list is a block before another list, so that lists
/// share their ends. Number 0 is the empty list.
pub struct BlockLists {
    counts: Vec<u64>,
    links: Vec<Link>,
}

impl Drop for BlockLists {
    fn drop(self) {
        let BlockLists {
            counts: _,
            links: _,
        } = self;
    }
}

impl Model for BlockLists {
    ghost use Rattle.call_table.specs.Lists.{AreLinked, Lists, lists_code, lists_of};

    ghost Value = { Lists };

    ghost coded = { lists_code };

    ghost view = { λ l. record { counts = l.counts.items; lists = lists_of l.links.items } };

    ghost invariant = { λ l. AreLinked l.counts.items l.links.items };
}

impl BlockLists {
    /// No block, and the empty list alone.
    pub fn new(alloc: Global) -> BlockLists
        ensures counts { result.counts ≡ [] }
        ensures lists { result.lists ≡ [] ∷ [] }
    {
        BlockLists {
            counts: Vec::new(alloc),
            links: Vec::new(alloc),
        }
    }

    /// Adds a block with `count` nodes, and returns its number. An error means that memory was refused or that there
    /// are 2^32 blocks; then nothing has changed.
    pub fn add_block(&mut self, count: u64) -> Result<u32, AllocError>
        ensures number { IfOk result (λ n. n ≡ length self.old.counts) }
        ensures counts { OnOk result (self.new.counts ≡ self.old.counts ++ count ∷ []) }
        ensures lists { self.new.lists ≡ self.old.lists }
        ensures err { OnErr result (self.new.counts ≡ self.old.counts) }
    {
        let Ok(number) = u32::try_from(self.counts.len()) else {
            return Err(AllocError);
        };
        self.counts.push(count)?;
        Ok(number)
    }

    /// Adds the list of a block before another list, and returns its number. An error means that memory was refused or
    /// that there are 2^32 lists; then nothing has changed.
    pub fn add(&mut self, first: u32, rest: u32) -> Result<u32, AllocError>
        requires { rest < length self.old.lists }
        ensures number { IfOk result (λ n. n ≡ length self.old.lists) }
        ensures lists { OnOk result (self.new.lists ≡ self.old.lists ++ (first ∷ list_at self.old rest) ∷ []) }
        ensures counts { self.new.counts ≡ self.old.counts }
        ensures err { OnErr result (self.new.lists ≡ self.old.lists) }
    {
        let Ok(number) = u32::try_from(self.links.len() + 1) else {
            return Err(AllocError);
        };
        let nodes = self.count(first).saturating_add(self.nodes(rest));
        self.links.push(Link { first, rest, nodes })?;
        Ok(number)
    }

    /// The number of nodes of a block; 0 where no block has this number.
    fn count(&self, block: u32) -> u64
        ensures { result ≡ get_or self.now.counts block 0 }
    {
        if (block as usize) < self.counts.len() {
            self.counts[block as usize]
        } else {
            0
        }
    }

    /// The first block of a list and the list of the others; None for the empty list, and where no list has this
    /// number.
    pub fn link(&self, number: u32) -> Option<Link>
        ensures some { IfSome result (IsLink self.now.counts self.now.lists number) }
        ensures none { IfNone result (list_at self.now number ≡ []) }
    {
        if number == 0 || number as usize > self.links.len() {
            return None;
        }
        Some(self.links[number as usize - 1])
    }

    /// A lower bound on the nodes of a list's blocks together: their number, where it fits 64 bits.
    pub fn nodes(&self, number: u32) -> u64
        ensures { result ≤ nodes_of self.now.counts (list_at self.now number) }
    {
        match self.link(number) {
            None => 0,
            Some(link) => link.nodes,
        }
    }
}
