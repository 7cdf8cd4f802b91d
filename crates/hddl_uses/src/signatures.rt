//! Declarations with their places, by name.
ghost use Rattle.std.specs.Prelude.{◌≡◌, [], ◌∷◌, ◌++◌, IfOk, List, MatchOption, OnOk, length, map, take};
ghost use Rattle.hddl_meaning.specs.Items.{Signature, signature};
ghost use Rattle.hddl_uses.specs.Tables.{HasPlaces, IsAmong, IsTableOf};

use hddl_names::fold;
use hddl_scope::{Declared, Numbers, parameters};
use hddl_words::{ActionText, Name, PredicateText, TaskText, VariableGroup};
use std::alloc::{AllocError, Global};

/// The places of declarations, and for each name the number of the first one.
pub(crate) struct Signatures<'a> {
    numbers: Numbers,
    places: Vec<Vec<Declared<'a>>>,
}

impl Drop for Signatures<'_> {
    fn drop(self) {
        let Signatures {
            numbers: _,
            places: _,
        } = self;
    }
}

impl<'a> Signatures<'a> {
    /// No declarations, with room for `capacity` of them.
    pub(crate) fn with_capacity(
        alloc: Global,
        capacity: usize,
    ) -> Result<Signatures<'a>, AllocError>
        ensures { IfOk result (IsTableOf []) }
    {
        Ok(Signatures {
            numbers: Numbers::with_capacity(alloc, capacity)?,
            places: Vec::with_capacity(alloc, capacity)?,
        })
    }

    /// How many declarations there are.
    pub(crate) fn len(&self) -> usize
        ensures { result ≡ length self.now.places.items }
    {
        self.places.len()
    }

    /// Adds a declaration.
    fn push(
        &mut self,
        alloc: Global,
        name: &Name,
        groups: &'a [VariableGroup],
    ) -> Result<(), AllocError>
        ensures { OnOk result ((signatures : List Signature) → IsTableOf signatures self.old → IsTableOf (signatures ++ signature name.now groups.now ∷ []) self.new) }
    {
        let text = fold(alloc, name.text())?;
        let places = parameters(alloc, groups)?;
        if self.numbers.get(text.as_slice()).is_none() {
            self.numbers.add(alloc, text.as_slice(), self.places.len())?;
        }
        self.places.push(places)?;
        Ok(())
    }

    pub(crate) fn push_predicates(
        &mut self,
        alloc: Global,
        predicates: &'a [PredicateText],
    ) -> Result<(), AllocError>
        ensures { OnOk result ((signatures : List Signature) → IsTableOf signatures self.old → IsTableOf (signatures ++ map (λ x. signature x.name x.parameters) predicates.now) self.new) }
    {
        for predicate in predicates {
            self.push(alloc, &predicate.name, predicate.parameters.as_slice())?;
        }
        Ok(())
    }

    pub(crate) fn push_tasks(
        &mut self,
        alloc: Global,
        tasks: &'a [TaskText],
    ) -> Result<(), AllocError>
        ensures { OnOk result ((signatures : List Signature) → IsTableOf signatures self.old → IsTableOf (signatures ++ map (λ x. signature x.name x.parameters) tasks.now) self.new) }
    {
        for task in tasks {
            self.push(alloc, &task.name, task.parameters.as_slice())?;
        }
        Ok(())
    }

    pub(crate) fn push_actions(
        &mut self,
        alloc: Global,
        actions: &'a [ActionText],
    ) -> Result<(), AllocError>
        ensures { OnOk result ((signatures : List Signature) → IsTableOf signatures self.old → IsTableOf (signatures ++ map (λ x. signature x.name x.parameters) actions.now) self.new) }
    {
        for action in actions {
            self.push(alloc, &action.name, action.parameters.as_slice())?;
        }
        Ok(())
    }

    /// The places of the first declaration of a name, if it is among the first `count` ones.
    pub(crate) fn get(&self, count: usize, text: &[u8]) -> Option<&[Declared<'a>]>
        ensures { (signatures : List Signature) → IsTableOf signatures self.now
            → MatchOption result (IsAmong (take count signatures) text.now → ⊥) (λ places. IsAmong (take count signatures) text.now × HasPlaces signatures text.now places.now) }
    {
        match self.numbers.get(text) {
            Some(number) if number < count => match self.places.get(number) {
                Some(places) => Some(places.as_slice()),
                None => None,
            },
            _ => None,
        }
    }
}
