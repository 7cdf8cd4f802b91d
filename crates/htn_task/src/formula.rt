//! Preconditions and goals.
ghost use Rattle.std.specs.Prelude.{◌≡◌};
ghost use Rattle.htn_task.specs.Formulas.{formulas_view};

use crate::term::{AtomSchema, EqualitySchema};
use std::marker::Model;

/// One part of a conjunction.
#[derive(Drop)]
pub enum Formula {
    /// An atom that is to be true, or false.
    Literal(bool, AtomSchema),
    Equation(EqualitySchema),
    /// The types of the variables, and what is to hold for all objects of these types.
    ForAll(Vec<u16>, Vec<Formula>),
}

/// A conjunction, in the order of the text.
#[derive(Drop)]
pub struct FormulaList {
    formulas: Vec<Formula>,
}

impl Model for FormulaList {
    ghost use Rattle.std.specs.Prelude.{List};
    ghost use Rattle.std.specs.Coded.{coded_list};
    ghost use Rattle.htn_model.specs.Schema as model;
    ghost use Rattle.htn_model.specs.TaskCode.{formula_code};
    ghost use Rattle.htn_task.specs.Formulas.{formulas_view};

    ghost Value = { List model.Formula };

    ghost coded = { coded_list formula_code };

    ghost view = { λ l. formulas_view l.formulas.items };
}

impl FormulaList {
    /// The conjunction of these formulas.
    pub fn of(formulas: Vec<Formula>) -> FormulaList
        ensures { result ≡ formulas_view formulas.items }
    {
        FormulaList { formulas }
    }

    /// The formulas in their order.
    pub fn as_slice(&self) -> &[Formula]
        ensures { formulas_view result.now ≡ self.now }
    {
        &self.formulas
    }
}
