//! The variables in force.
ghost use Rattle.std.specs.Prelude.{◌≡◌, ◌+◌, ◌≤◌, [], ◌++◌, length, take, IfOk, OnOk, OnErr};
ghost use Rattle.hddl_meaning.specs.Mentions.{folded};
ghost use Rattle.hddl_meaning.specs.Names.{number_in};
ghost use Rattle.hddl_meaning.specs.Building.{variables_of};
ghost use Rattle.hddl_build.specs.InForce.{most_in_force};

use hddl_names::fold;
use hddl_words::{Variable, VariableGroup};
use std::alloc::{AllocError, Global};
use std::marker::Model;

/// The variables in force: the parameters, and then those of each `forall` around. Contracts see their texts. There are
/// 65,536 at most, so their positions fit sixteen bits.
#[derive(Drop)]
pub(crate) struct Scope<'a> {
    variables: hddl_scope::Scope<'a>,
}

impl<'a> Model for Scope<'a> {
    ghost use Rattle.std.specs.Prelude.{List, ◌≤◌, length};
    ghost use Rattle.hddl_meaning.specs.Mentions.{Text};
    ghost use Rattle.hddl_build.specs.InForce.{most_in_force};
    ghost use Rattle.hddl_build.specs.Scopes.{texts_of};

    ghost Value = { List Text };

    ghost view = { λ scope. texts_of scope.variables };

    ghost invariant = { λ scope. length scope.variables ≤ most_in_force };
}

impl<'a> Scope<'a> {
    /// No variable.
    pub(crate) fn empty(alloc: Global) -> Scope<'a>
        ensures { result ≡ [] }
    {
        Scope {
            variables: hddl_scope::Scope::new(alloc),
        }
    }

    /// The parameters of a schema.
    pub(crate) fn of(alloc: Global, groups: &'a [VariableGroup]) -> Result<Scope<'a>, AllocError>
        requires { length (variables_of groups.now) ≤ most_in_force }
        ensures { IfOk result (λ scope. scope ≡ variables_of groups.now) }
    {
        let variables = hddl_scope::Scope::of(alloc, groups)?;
        Ok(Scope { variables })
    }

    /// How many variables are in force.
    pub(crate) fn len(&self) -> usize
        ensures { result ≡ length self.now }
    {
        self.variables.len()
    }

    /// Puts the variables of a `forall` in force. Where memory is refused, none of them is.
    pub(crate) fn push(
        &mut self,
        alloc: Global,
        groups: &'a [VariableGroup],
    ) -> Result<(), AllocError>
        requires { length self.old + length (variables_of groups.now) ≤ most_in_force }
        ensures ok { OnOk result (self.new ≡ self.old ++ variables_of groups.now) }
        ensures err { OnErr result (self.new ≡ self.old) }
    {
        self.variables.push_quantified(alloc, groups)
    }

    /// Leaves only the first `len` variables in force.
    pub(crate) fn truncate(&mut self, len: usize)
        ensures { self.new ≡ take len self.old }
    {
        self.variables.truncate(len);
    }

    /// The position of the first variable of that text, or 0 where none has it.
    pub(crate) fn number_of(&self, alloc: Global, variable: &Variable) -> Result<u16, AllocError>
        ensures { IfOk result (λ number. number ≡ number_in self.now (folded variable.now.text)) }
    {
        let text = fold(alloc, variable.text())?;
        match self.variables.position(text.as_slice()) {
            Some(position) => Ok(position as u16),
            None => Ok(0),
        }
    }
}
