//! Where each name of a pair is first declared.

ghost use Rattle.std.specs.Prelude.{◌≡◌, List, [], ◌∷◌, ◌++◌, IfOk, IfSome, OnOk, map};
ghost use Rattle.hddl_meaning.specs.Mentions.{mention_of, mentions_of, typed_names, IsIn, Mention as Named};
ghost use Rattle.hddl_meaning.specs.Names.{type_mentions};
ghost use Rattle.pair_messages.specs.Firsts.{AreFirstCalled, AreFirstOf, AreFirstTyped};
ghost use Rattle.pair_messages.specs.Notes.{called_mentions, declarations_of, first_place, IsFirst, IsFirstCalled, IsFirstObject, IsInDomain};

use crate::index::PairIndex;
use crate::stands::Kind;
use hddl_locate::{action_by, method_by, predicate_by, task_by};
use hddl_meaning::{At, Source as Side};
use hddl_scope::{Mention, Numbers, method_names, names_in, predicate_names, task_names, types_in};
use hddl_words::{
    ActionText, DomainText, MethodText, Name, NameGroup, PredicateText, ProblemText, TaskText,
    VariableGroup,
};
use std::alloc::{AllocError, Global};

/// What a name is declared as.
#[derive(Clone, Copy)]
pub(crate) enum Sort {
    Type,
    /// A constant or an object.
    Object,
    /// What uses of a kind name.
    Called(Kind),
}

/// What a domain declares with parameters: a predicate, a compound task or an action.
#[derive(Clone, Copy)]
pub(crate) struct Declaration<'a> {
    pub(crate) name: &'a Name,
    pub(crate) parameters: &'a [VariableGroup],
}

/// The place of the first declaration of each name in lower case, of what has types.
pub(crate) struct FirstTyped {
    pub(crate) types: Numbers,
    pub(crate) constants: Numbers,
    pub(crate) objects: Numbers,
}

impl Drop for FirstTyped {
    fn drop(self) {
        let FirstTyped {
            types: _,
            constants: _,
            objects: _,
        } = self;
    }
}

/// The place of the first declaration of each name in lower case, of what has parameters.
pub(crate) struct FirstCalled {
    pub(crate) predicates: Numbers,
    pub(crate) tasks: Numbers,
    pub(crate) actions: Numbers,
    pub(crate) methods: Numbers,
}

impl Drop for FirstCalled {
    fn drop(self) {
        let FirstCalled {
            predicates: _,
            tasks: _,
            actions: _,
            methods: _,
        } = self;
    }
}

/// Adds the place of a name, if it is the first of its text.
fn add_first(alloc: Global, places: &mut Numbers, mention: &Mention<'_>) -> Result<(), AllocError>
    ensures { OnOk result ((names : List Named) → AreFirstOf names places.old → AreFirstOf (names ++ mention.now ∷ []) places.new) }
{
    if places.get(mention.text()).is_some() {
        return Ok(());
    }
    places.add(alloc, mention.text(), mention.place())?;
    Ok(())
}

/// The first place of each of some names.
fn first_places(alloc: Global, mentions: &[Mention<'_>]) -> Result<Numbers, AllocError>
    ensures { IfOk result (AreFirstOf mentions.now) }
{
    let mut places = Numbers::with_capacity(alloc, mentions.len())?;
    for mention in mentions {
        add_first(alloc, &mut places, mention)?;
    }
    Ok(places)
}

/// The types and their parents.
fn first_types(alloc: Global, domain: &DomainText) -> Result<Numbers, AllocError>
    ensures { IfOk result (AreFirstOf (type_mentions domain.now)) }
{
    let mentions = types_in(alloc, domain.types.as_slice())?;
    let places = first_places(alloc, mentions.as_slice())?;
    Ok(places)
}

/// The names of a typed list.
fn first_names(alloc: Global, groups: &[NameGroup]) -> Result<Numbers, AllocError>
    ensures { IfOk result (AreFirstOf (mentions_of (typed_names groups.now))) }
{
    let mentions = names_in(alloc, groups)?;
    let places = first_places(alloc, mentions.as_slice())?;
    Ok(places)
}

/// The predicates.
fn first_predicates(alloc: Global, predicates: &[PredicateText]) -> Result<Numbers, AllocError>
    ensures { IfOk result (AreFirstOf (map (λ x. mention_of x.name) predicates.now)) }
{
    let mentions = predicate_names(alloc, predicates)?;
    let places = first_places(alloc, mentions.as_slice())?;
    Ok(places)
}

/// The methods.
fn first_methods(alloc: Global, methods: &[MethodText]) -> Result<Numbers, AllocError>
    ensures { IfOk result (AreFirstOf (map (λ x. mention_of x.name) methods.now)) }
{
    let mentions = method_names(alloc, methods)?;
    let places = first_places(alloc, mentions.as_slice())?;
    Ok(places)
}

/// The compound tasks.
fn first_tasks(alloc: Global, tasks: &[TaskText]) -> Result<Numbers, AllocError>
    ensures { IfOk result (AreFirstOf (map (λ x. mention_of x.name) tasks.now)) }
{
    let mentions = task_names(alloc, tasks, &[])?;
    let places = first_places(alloc, mentions.as_slice())?;
    Ok(places)
}

/// The actions.
fn first_actions(alloc: Global, actions: &[ActionText]) -> Result<Numbers, AllocError>
    ensures { IfOk result (AreFirstOf (map (λ x. mention_of x.name) actions.now)) }
{
    let mentions = task_names(alloc, &[], actions)?;
    let places = first_places(alloc, mentions.as_slice())?;
    Ok(places)
}

/// The first types, constants and objects of a pair.
pub(crate) fn first_typed(
    alloc: Global,
    domain: &DomainText,
    problem: &ProblemText,
) -> Result<FirstTyped, AllocError>
    ensures { IfOk result (AreFirstTyped domain.now problem.now) }
{
    let types = first_types(alloc, domain)?;
    let constants = first_names(alloc, domain.constants.as_slice())?;
    let objects = first_names(alloc, problem.objects.as_slice())?;
    Ok(FirstTyped {
        types,
        constants,
        objects,
    })
}

/// The first predicates, compound tasks, actions and methods of a domain.
pub(crate) fn first_called(alloc: Global, domain: &DomainText) -> Result<FirstCalled, AllocError>
    ensures { IfOk result (AreFirstCalled domain.now) }
{
    let predicates = first_predicates(alloc, domain.predicates.as_slice())?;
    let tasks = first_tasks(alloc, domain.tasks.as_slice())?;
    let actions = first_actions(alloc, domain.actions.as_slice())?;
    let methods = first_methods(alloc, domain.methods.as_slice())?;
    Ok(FirstCalled {
        predicates,
        tasks,
        actions,
        methods,
    })
}

/// The place of the first compound task of a name, or else of the first action.
fn first_task(index: &PairIndex<'_>, text: &[u8]) -> Option<usize>
    ensures { result ≡ first_place (called_mentions index.now.texts.now.domain_tree.now Kind.Task) text.now }
{
    match index.first_called.tasks.get(text) {
        Some(place) => Some(place),
        None => index.first_called.actions.get(text),
    }
}

/// The place of the first declaration of a name that uses of a kind have.
fn called_place(index: &PairIndex<'_>, kind: Kind, text: &[u8]) -> Option<usize>
    ensures { result ≡ first_place (called_mentions index.now.texts.now.domain_tree.now kind) text.now }
{
    match kind {
        Kind::Predicate => index.first_called.predicates.get(text),
        Kind::Compound => first_task(index, text),
        Kind::Task => first_task(index, text),
    }
}

/// A place of the domain, if there is one.
fn in_domain(place: Option<usize>) -> Option<At>
    ensures { IfSome result (IsInDomain place) }
{
    match place {
        Some(place) => Some(At {
            source: Side::Domain,
            place,
        }),
        None => None,
    }
}

/// Where the first constant of a name is, or else the first object of the problem.
pub(crate) fn first_object(index: &PairIndex<'_>, text: &[u8]) -> Option<At>
    ensures { IfSome result (IsFirstObject index.now.texts.now.domain_tree.now index.now.texts.now.problem_tree.now text.now) }
{
    match index.first_typed.constants.get(text) {
        Some(place) => Some(At {
            source: Side::Domain,
            place,
        }),
        None => match index.first_typed.objects.get(text) {
            Some(place) => Some(At {
                source: Side::Problem,
                place,
            }),
            None => None,
        },
    }
}

/// Where a name is first declared.
pub(crate) fn first_at(index: &PairIndex<'_>, sort: Sort, text: &[u8]) -> Option<At>
    ensures { IfSome result (IsFirst index.now.texts.now.domain_tree.now index.now.texts.now.problem_tree.now sort text.now) }
{
    match sort {
        Sort::Type => in_domain(index.first_typed.types.get(text)),
        Sort::Object => first_object(index, text),
        Sort::Called(kind) => in_domain(called_place(index, kind, text)),
    }
}

/// The predicate at a place.
fn predicate_at(domain: &DomainText, place: usize) -> Option<Declaration<'_>>
    ensures { IfSome result (λ x. IsIn (x.name.now, x.parameters.now) (declarations_of domain.now Kind.Predicate) × (x.name.now.place ≡ place)) }
{
    let predicate = predicate_by(domain.predicates.as_slice(), place)?;
    if predicate.name.place() == place {
        return Some(Declaration {
            name: &predicate.name,
            parameters: predicate.parameters.as_slice(),
        });
    }
    None
}

/// The compound task at a place.
fn task_at(domain: &DomainText, place: usize) -> Option<Declaration<'_>>
    ensures { IfSome result (λ x. IsIn (x.name.now, x.parameters.now) (declarations_of domain.now Kind.Task) × (x.name.now.place ≡ place)) }
{
    let task = task_by(domain.tasks.as_slice(), place)?;
    if task.name.place() == place {
        return Some(Declaration {
            name: &task.name,
            parameters: task.parameters.as_slice(),
        });
    }
    None
}

/// The action at a place.
fn action_at(domain: &DomainText, place: usize) -> Option<Declaration<'_>>
    ensures { IfSome result (λ x. IsIn (x.name.now, x.parameters.now) (declarations_of domain.now Kind.Task) × (x.name.now.place ≡ place)) }
{
    let action = action_by(domain.actions.as_slice(), place)?;
    if action.name.place() == place {
        return Some(Declaration {
            name: &action.name,
            parameters: action.parameters.as_slice(),
        });
    }
    None
}

/// The compound task or the action at a place.
fn task_or_action_at(domain: &DomainText, place: usize) -> Option<Declaration<'_>>
    ensures { IfSome result (λ x. IsIn (x.name.now, x.parameters.now) (declarations_of domain.now Kind.Task) × (x.name.now.place ≡ place)) }
{
    match task_at(domain, place) {
        Some(task) => Some(task),
        None => action_at(domain, place),
    }
}

/// What uses of a kind name at a place.
fn called_at(domain: &DomainText, kind: Kind, place: usize) -> Option<Declaration<'_>>
    ensures { IfSome result (λ x. IsIn (x.name.now, x.parameters.now) (declarations_of domain.now kind) × (x.name.now.place ≡ place)) }
{
    match kind {
        Kind::Predicate => predicate_at(domain, place),
        Kind::Compound => task_or_action_at(domain, place),
        Kind::Task => task_or_action_at(domain, place),
    }
}

/// The first declaration of a name that uses of a kind have.
pub(crate) fn declaration_of<'a>(
    index: &PairIndex<'a>,
    kind: Kind,
    text: &[u8],
) -> Option<Declaration<'a>>
    ensures { IfSome result (λ x. IsFirstCalled index.now.texts.now.domain_tree.now kind text.now (x.name.now, x.parameters.now)) }
{
    let Some(place) = called_place(index, kind, text) else {
        return None;
    };
    let found = called_at(index.texts.domain_tree, kind, place)?;
    Some(found)
}

/// The first method of a name.
pub(crate) fn first_method<'a>(index: &PairIndex<'a>, text: &[u8]) -> Option<&'a MethodText> {
    let place = index.first_called.methods.get(text)?;
    let method = method_by(index.texts.domain_tree.methods.as_slice(), place)?;
    if method.name.place() == place {
        Some(method)
    } else {
        None
    }
}
