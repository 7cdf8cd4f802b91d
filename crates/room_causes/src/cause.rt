//! Causes as data.

use htn_ground::ObjectList;
use htn_task::LiteralList;

/// Why the lines of a plan file have no room in the whole plan.
#[derive(Drop)]
pub struct RoomCause {
    /// The number of a line that has no room, although each line below it has; none for the root line.
    pub line: Option<usize>,
    /// The conflict of the lines below it; None where no single conflict was found.
    pub conflict: Option<Conflict>,
}

/// A conflict of the lines below one.
#[derive(Drop)]
pub enum Conflict {
    /// The line's precondition holds nowhere.
    Precondition(Unmet),
    /// Two nodes are in the order of the line's network, and have room only the other way round.
    Order(OrderConflict),
}

/// A precondition that holds in no gap of a range.
pub struct Unmet {
    /// The values of the method's parameters.
    pub values: ObjectList,
    pub literals: LiteralList,
    /// The place of a literal that is false in each of these gaps, if there is one.
    pub literal: Option<usize>,
    pub from: usize,
    pub until: usize,
}

impl Drop for Unmet {
    fn drop(self) {
        let Unmet {
            values: _,
            literals: _,
            literal: _,
            from: _,
            until: _,
        } = self;
    }
}

/// A node of a network: a child by its line, or the precondition.
#[derive(Drop)]
pub enum Node {
    Line(usize),
    Precondition(LiteralList),
}

/// Two nodes of a network, one of which has to come before the other and can't.
pub struct OrderConflict {
    /// The values of the method's parameters.
    pub values: ObjectList,
    /// The positions of the two nodes in the network.
    pub before: usize,
    pub after: usize,
    pub first: Node,
    /// The line of the node that comes after the first.
    pub second: usize,
    /// The first node can't be done before this gap, and from it on the second has no room.
    pub from: usize,
    /// The action below the first that is just before the gap, if there is one.
    pub late: Option<usize>,
    /// An action below the second that comes before the gap, if there is one.
    pub early: Option<usize>,
    /// The second line's precondition, where it holds in no gap from this one on.
    pub unmet: Option<Unmet>,
}

impl Drop for OrderConflict {
    fn drop(self) {
        let OrderConflict {
            values: _,
            before: _,
            after: _,
            first: _,
            second: _,
            from: _,
            late: _,
            early: _,
            unmet: _,
        } = self;
    }
}
