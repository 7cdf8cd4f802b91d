//! What the actions of a plan change.

/// An atom as words: its predicate, and then its objects.
#[derive(Drop, PartialEq, Eq, PartialOrd, Ord)]
pub struct Fact<'a> {
    pub words: Vec<&'a [u8]>,
}

/// The changes of an action.
pub struct Change<'a> {
    /// The atoms that it makes true and that were false, in the order of the words.
    pub added: Vec<Fact<'a>>,
    /// The atoms that it makes false and that were true, in the order of the words.
    pub deleted: Vec<Fact<'a>>,
}

impl Drop for Change<'_> {
    fn drop(self) {
        let Change {
            added: _,
            deleted: _,
        } = self;
    }
}

/// The run of a plan's action lines, as far as they can be carried out.
pub struct Run<'a> {
    /// The atoms that are true initially and may change, in the order of the words.
    pub start: Vec<Fact<'a>>,
    /// The changes of each action, in turn.
    pub changes: Vec<Change<'a>>,
}

impl Drop for Run<'_> {
    fn drop(self) {
        let Run {
            start: _,
            changes: _,
        } = self;
    }
}
