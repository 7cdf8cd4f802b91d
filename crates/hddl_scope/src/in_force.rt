//! The variables in force, found by their texts.
ghost use Rattle.std.specs.Prelude.{◌≡◌, ℕ, [], ◌∷◌, ◌++◌, length, take, cond, is_ok, is_some, Option, Some, None, IfOk, OnErr, OnOk};
ghost use Rattle.std.specs.Prelude.{option_and_then, option_map, slice_get};
ghost use Rattle.std.specs.List.{flat_map, position};
ghost use Rattle.hddl_meaning.specs.Mentions.{Mention, Text};
ghost use Rattle.hddl_meaning.specs.Names.{is_same_text};
ghost use Rattle.hddl_meaning.specs.Items.{IsPast, variable_in, variable_mentions};
ghost use Rattle.hddl_meaning.specs.Uses.{parameters_of, quantified_of};
ghost use Rattle.hddl_scope.specs.Findings.{Finds};
ghost use Rattle.hddl_scope.specs.Numbers.{number_at};
ghost use Rattle.hddl_scope.specs.Repeats.{AreRepeats, IsFirstOf, IsRepeatOfFirst, repeat_of};
ghost use Rattle.hddl_scope.specs.Scopes.{group_variables, has_text};

use crate::numbers::Numbers;
use crate::repeated::{later, least};
use crate::scope::Declared;
use hddl_words::VariableGroup;
use std::alloc::{AllocError, Global};
use std::marker::Model;

/// A variable in force, with what was known before it.
#[derive(Drop)]
struct Entry<'a> {
    variable: Declared<'a>,
    /// How many texts the variables before it have.
    texts: usize,
    /// The place of a variable before it whose text stood before, if there is one.
    repeat: Option<usize>,
}

/// The variables in force: the parameters of a schema, and then those of each `forall` around. Variables are put in
/// force and taken back at the end, and the work is that of these variables alone. Contracts see the list of the
/// variables.
pub struct Scope<'a> {
    entries: Vec<Entry<'a>>,
    /// The position of the first variable of each text.
    positions: Numbers,
    /// The place of a variable whose text occurs before it, if there is one.
    repeat: Option<usize>,
}

impl Drop for Scope<'_> {
    fn drop(self) {
        let Scope {
            entries: _,
            positions: _,
            repeat: _,
        } = self;
    }
}

impl<'a> Model for Scope<'a> {
    ghost use Rattle.std.specs.Prelude.{List};
    ghost use Rattle.hddl_meaning.specs.Uses.{Variable};
    ghost use Rattle.hddl_scope.specs.InForce.{IsScope, variables_of};

    ghost Value = { List Variable };

    ghost view = { λ scope. variables_of scope.entries.items };

    ghost invariant = { λ scope. IsScope scope.entries.items scope.positions scope.repeat };
}

/// Gives a number to a text, unless it has one, which is `first`. Where memory is refused, the numbers are as they
/// were.
fn number_text(
    alloc: Global,
    positions: &mut Numbers,
    text: &[u8],
    first: Option<usize>,
    number: usize,
) -> Result<(), AllocError>
    requires { first ≡ number_at positions.old text.now }
    ensures numbers { OnOk result ((t : Text) → number_at positions.new t
        ≡ cond (is_some (number_at positions.old t)) (number_at positions.old t) (cond (is_same_text t text.now) (Some number) None)) }
    ensures kept { take (length positions.old) positions.new ≡ positions.old }
    ensures err { OnErr result (positions.new ≡ positions.old) }
{
    if first.is_none() {
        positions.add(alloc, text, number)?;
    }
    Ok(())
}

/// Adds an entry. Where memory is refused, the entries are as they were.
fn push_entry<'a>(entries: &mut Vec<Entry<'a>>, entry: Entry<'a>) -> Result<(), AllocError>
    ensures { entries.new.items ≡ cond (is_ok result) (entries.old.items ++ entry.entry ∷ []) entries.old.items }
{
    entries.push(entry)?;
    Ok(())
}

impl<'a> Scope<'a> {
    /// No variables.
    pub fn new(alloc: Global) -> Scope<'a>
        ensures { result ≡ [] }
    {
        Scope {
            entries: Vec::new(alloc),
            positions: Numbers::new(alloc),
            repeat: None,
        }
    }

    /// No variables, with room for `capacity` of them.
    fn with_capacity(alloc: Global, capacity: usize) -> Result<Scope<'a>, AllocError>
        ensures { IfOk result (λ scope. scope ≡ []) }
    {
        Ok(Scope {
            entries: Vec::with_capacity(alloc, capacity)?,
            positions: Numbers::with_capacity(alloc, capacity)?,
            repeat: None,
        })
    }

    /// The parameters of a schema.
    pub fn of(alloc: Global, groups: &'a [VariableGroup]) -> Result<Scope<'a>, AllocError>
        ensures { IfOk result (λ scope. scope ≡ parameters_of groups.now) }
    {
        let mut scope = Scope::with_capacity(alloc, groups.len())?;
        scope.push_groups(alloc, groups, false)?;
        Ok(scope)
    }

    /// How many variables are in force.
    pub fn len(&self) -> usize
        ensures { result ≡ length self.now }
    {
        self.entries.len()
    }

    /// The first variable of a text.
    pub fn get(&self, text: &[u8]) -> Option<&Declared<'a>>
        ensures { option_map (λ v. v.now) result ≡ variable_in self.now text.now }
    {
        self.at(self.positions.get(text))
    }

    /// The variable at a position, if one is given.
    fn at(&self, position: Option<usize>) -> Option<&Declared<'a>>
        ensures { option_map (λ v. v.now) result ≡ option_and_then (slice_get self.now) position }
    {
        match position {
            Some(position) => match self.entries.get(position) {
                Some(entry) => Some(&entry.variable),
                None => None,
            },
            None => None,
        }
    }

    /// The position of the first variable of a text.
    pub fn position(&self, text: &[u8]) -> Option<usize>
        ensures { result ≡ position (has_text text.now) self.now }
    {
        self.positions.get(text)
    }

    /// The place of a variable whose text occurs before it, if there is one.
    pub fn repeat(&self) -> Option<usize>
        ensures { Finds (IsRepeatOfFirst (variable_mentions self.now)) result }
    {
        self.repeat
    }

    /// The place at which the variable at a position stands again, if one of its text stands before: the later place of
    /// its and the first one's.
    fn repeat_at(&self, position: usize) -> Option<usize>
        ensures { (m : Mention) → slice_get (variable_mentions self.now) position ≡ Some m
            → (first : Option ℕ) × IsFirstOf (take position (variable_mentions self.now)) m.text first × (result ≡ repeat_of first m.place) }
    {
        let Some(variable) = self.at(Some(position)) else {
            return None;
        };
        let Some(first) = self.position(variable.text()) else {
            return None;
        };
        if first >= position {
            return None;
        }
        later(self.place_at(Some(first)), variable.place())
    }

    /// The places at which variables past the first `start` ones repeat others.
    pub fn repeats(&self, alloc: Global, start: usize) -> Result<Vec<usize>, AllocError>
        ensures { IfOk result (λ places. AreRepeats start (variable_mentions self.now) places.items) }
    {
        let mut places = Vec::new(alloc);
        for position in start..self.entries.len() {
            if let Some(place) = self.repeat_at(position) {
                places.push(place)?;
            }
        }
        Ok(places)
    }

    /// The place of the first variable past a limit, if there are more.
    pub fn first_past(&self, limit: usize) -> Option<usize>
        ensures { Finds (IsPast limit (variable_mentions self.now)) result }
    {
        match self.entries.get(limit) {
            Some(entry) => Some(entry.variable.place()),
            None => None,
        }
    }

    /// The place of the variable at a position, if one is given.
    fn place_at(&self, position: Option<usize>) -> Option<usize>
        ensures { result ≡ option_map (λ v. v.typed.mention.place) (option_and_then (slice_get self.now) position) }
    {
        match self.at(position) {
            Some(variable) => Some(variable.place()),
            None => None,
        }
    }

    /// Puts a variable in force. Where memory is refused, the others are in force as they were.
    fn push(&mut self, alloc: Global, variable: Declared<'a>) -> Result<(), AllocError>
        ensures ok { OnOk result (self.new ≡ self.old ++ variable.entry ∷ []) }
        ensures err { OnErr result (self.new ≡ self.old) }
    {
        let first = self.positions.get(variable.text());
        let here = later(self.place_at(first), variable.place());
        let texts = self.positions.len();
        let repeat = self.repeat;
        let position = self.entries.len();
        number_text(alloc, &mut self.positions, variable.text(), first, position)?;
        let entry = Entry {
            variable,
            texts,
            repeat,
        };
        if push_entry(&mut self.entries, entry).is_err() {
            self.positions.truncate(texts);
            return Err(AllocError);
        }
        self.repeat = least(repeat, here);
        Ok(())
    }

    /// Puts the variables of a group in force, or some of them where memory is refused.
    fn push_group(
        &mut self,
        alloc: Global,
        group: &'a VariableGroup,
        is_quantified: bool,
    ) -> Result<(), AllocError>
        ensures ok { OnOk result (self.new ≡ self.old ++ group_variables is_quantified group.now) }
        ensures kept { take (length self.old) self.new ≡ self.old }
    {
        for variable in group.variables.as_slice() {
            let own = Declared::of(alloc, variable, &group.of_type, is_quantified)?;
            self.push(alloc, own)?;
        }
        Ok(())
    }

    /// Puts the variables of a typed list in force, or some of them where memory is refused.
    fn push_groups(
        &mut self,
        alloc: Global,
        groups: &'a [VariableGroup],
        is_quantified: bool,
    ) -> Result<(), AllocError>
        ensures ok { OnOk result (self.new ≡ self.old ++ flat_map (group_variables is_quantified) groups.now) }
        ensures kept { take (length self.old) self.new ≡ self.old }
    {
        for group in groups {
            self.push_group(alloc, group, is_quantified)?;
        }
        Ok(())
    }

    /// Puts the variables of a `forall` in force. Where memory is refused, none of them is.
    pub fn push_quantified(
        &mut self,
        alloc: Global,
        groups: &'a [VariableGroup],
    ) -> Result<(), AllocError>
        ensures ok { OnOk result (self.new ≡ self.old ++ quantified_of groups.now) }
        ensures err { OnErr result (self.new ≡ self.old) }
    {
        let around = self.len();
        let pushed = self.push_groups(alloc, groups, true);
        if pushed.is_err() {
            self.truncate(around);
        }
        pushed
    }

    /// Leaves only the first `len` variables in force.
    pub fn truncate(&mut self, len: usize)
        ensures { self.new ≡ take len self.old }
    {
        let Some(first) = self.entries.get(len) else {
            return;
        };
        let texts = first.texts;
        let repeat = first.repeat;
        self.entries.truncate(len);
        self.positions.truncate(texts);
        self.repeat = repeat;
    }
}
