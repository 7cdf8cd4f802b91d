//! Variables with their types.
ghost use Rattle.std.specs.Prelude.{◌≡◌, ◌++◌, false, IfOk, OnOk, option_map};
ghost use Rattle.hddl_meaning.specs.Mentions.{mention_of, variable_mention};
ghost use Rattle.hddl_meaning.specs.Uses.{parameters_of};
ghost use Rattle.hddl_scope.specs.Scopes.{group_variables};

use crate::mention::Mention;
use hddl_words::{Name, Variable, VariableGroup};
use std::alloc::{AllocError, Global};
use std::marker::Model;

/// A variable in force, with the type that is written for it. Contracts see the variable of the definitions.
#[derive(Drop)]
pub struct Declared<'a> {
    mention: Mention<'a>,
    of_type: Option<Mention<'a>>,
    is_quantified: bool,
}

impl<'a> Model for Declared<'a> {
    ghost Value = { Rattle.hddl_meaning.specs.Uses.Variable };

    ghost view = { λ v. record { typed = record { mention = v.mention; of_type = v.of_type }; is_quantified = v.is_quantified } };
}

fn type_of(alloc: Global, of_type: &Option<Name>) -> Result<Option<Mention<'_>>, AllocError>
    ensures { IfOk result (λ mention. mention ≡ option_map mention_of of_type.now) }
{
    match of_type {
        Some(name) => Ok(Some(Mention::of_name(alloc, name)?)),
        None => Ok(None),
    }
}

impl<'a> Declared<'a> {
    /// A variable with the type that is written for it.
    pub(crate) fn of(
        alloc: Global,
        variable: &'a Variable,
        of_type: &'a Option<Name>,
        is_quantified: bool,
    ) -> Result<Declared<'a>, AllocError>
        ensures { IfOk result (λ v. v ≡ record {
          typed = record { mention = variable_mention variable.now; of_type = option_map mention_of of_type.now };
          is_quantified = is_quantified;
        }) }
    {
        let mention = Mention::of_variable(alloc, variable)?;
        let of_type = type_of(alloc, of_type)?;
        Ok(Declared {
            mention,
            of_type,
            is_quantified,
        })
    }

    /// Its bytes in lower case.
    pub fn text(&self) -> &[u8]
        ensures { result.now ≡ self.now.typed.mention.text }
    {
        self.mention.text()
    }

    /// The type that is written for it.
    pub fn of_type(&self) -> &Option<Mention<'a>>
        ensures { result.now ≡ self.now.typed.of_type }
    {
        &self.of_type
    }

    /// Whether a `forall` declares it.
    pub fn is_quantified(&self) -> bool
        ensures { result ≡ self.now.is_quantified }
    {
        self.is_quantified
    }

    /// The byte offset of its first byte in the text.
    pub(crate) fn place(&self) -> usize
        ensures { result ≡ self.now.typed.mention.place }
    {
        self.mention.place()
    }
}

/// Adds the parameters of a group.
fn push_group<'a>(
    alloc: Global,
    parameters: &mut Vec<Declared<'a>>,
    group: &'a VariableGroup,
) -> Result<(), AllocError>
    ensures { OnOk result (parameters.new.items ≡ parameters.old.items ++ group_variables false group.now) }
{
    for variable in group.variables.as_slice() {
        parameters.push(Declared::of(alloc, variable, &group.of_type, false)?)?;
    }
    Ok(())
}

/// The places of a declaration, as parameters.
pub fn parameters(alloc: Global, groups: &[VariableGroup]) -> Result<Vec<Declared<'_>>, AllocError>
    ensures { IfOk result (λ parameters. parameters.items ≡ parameters_of groups.now) }
{
    let mut parameters = Vec::with_capacity(alloc, groups.len())?;
    for group in groups {
        push_group(alloc, &mut parameters, group)?;
    }
    Ok(parameters)
}
