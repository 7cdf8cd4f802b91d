//! Ground actions.

use crate::literal::LiteralList;
use crate::state::State;
use std::marker::Model;

/// A ground action: its precondition and its effects.
pub struct Action {
    pub precondition: LiteralList,
    /// The atoms that become false.
    pub deletes: State,
    /// The atoms that are true afterwards, also those deleted.
    pub adds: State,
}

impl Drop for Action {
    fn drop(self) {
        let Action {
            precondition: _,
            deletes: _,
            adds: _,
        } = self;
    }
}

impl Model for Action {
    ghost use Rattle.htn_model.specs.Literal as model;

    ghost Value = { model.Action };

    ghost coded = { model.action_code };

    ghost view = { λ a. record { precondition = a.precondition; deletes = a.deletes; adds = a.adds } };
}
