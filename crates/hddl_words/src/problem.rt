//! The tree of a problem's text.

use crate::condition::Condition;
use crate::items::Items;
use crate::name::Name;
use crate::network::NetworkText;
use crate::requirement::Requirement;
use crate::term::{AtomText, NameGroup, VariableGroup};

/// The initial task network, `:htn`.
#[derive(Debug)]
pub struct HtnText {
    /// The byte offset of its opening bracket.
    pub place: usize,
    pub parameters: Items<VariableGroup>,
    pub network: NetworkText,
}

impl Drop for HtnText {
    fn drop(self) {
        let HtnText {
            place: _,
            parameters: _,
            network: _,
        } = self;
    }
}

/// The tree of a problem's text. What isn't written is empty.
pub struct ProblemText {
    pub name: Name,
    /// The name of the domain that it names.
    pub domain: Name,
    pub requirements: Items<Requirement>,
    pub objects: Items<NameGroup>,
    pub init: Items<AtomText>,
    pub goal: Items<Condition>,
    pub htn: HtnText,
}

impl Drop for ProblemText {
    fn drop(self) {
        let ProblemText {
            name: _,
            domain: _,
            requirements: _,
            objects: _,
            init: _,
            goal: _,
            htn: _,
        } = self;
    }
}
