//! The items at a place of a tree. Each list of a tree is in the order of its text, so each is found by binary search:
//! `_at` finds an item that begins at the place itself, `_by` the last one that doesn't begin after it. In lists of any
//! other order an item may be missed, and none is found that isn't there.

ghost use Rattle.std.specs.Prelude.{◌≡◌, ◌⊎◌, Contains, IfSome, Some, slice_get};
ghost use Rattle.hddl_words.specs.declared.term.Term.{Term};
ghost use Rattle.hddl_locate.specs.Places.{DeclaresName, DeclaresVariable, WritesType, term_place as place_of_term};

use hddl_words::{
    ActionText, AtomText, Condition, EqualityText, LiteralText, MethodText, Name, NameGroup,
    OrderingText, PredicateText, SubtaskText, TaskText, Term, Variable, VariableGroup,
};

/// The place of a term.
pub fn term_place(term: &Term) -> usize
    ensures { result ≡ place_of_term term.now }
{
    match term {
        Term::Variable(variable) => variable.place(),
        Term::Object(name) => name.place(),
    }
}

/// The last of some things of which the first ones, as many as the number says, don't begin after a place.
fn last_of<T>(things: &[T], count: usize) -> Option<&T>
    ensures { IfSome result (λ x. Contains things.now x.now) }
{
    things.get(count.checked_sub(1)?)
}

/// The name at a place.
pub fn name_at(names: &[Name], place: usize) -> Option<&Name>
    ensures { IfSome result (λ x. Contains names.now x.now × (x.now.place ≡ place)) }
{
    let name = last_of(names, names.partition_point(|x| x.place() <= place))?;
    if name.place() == place {
        Some(name)
    } else {
        None
    }
}

/// The variable at a place.
fn variable_at(variables: &[Variable], place: usize) -> Option<&Variable>
    ensures { IfSome result (λ x. Contains variables.now x.now × (x.now.place ≡ place)) }
{
    let variable = last_of(variables, variables.partition_point(|x| x.place() <= place))?;
    if variable.place() == place {
        Some(variable)
    } else {
        None
    }
}

/// Whether the names of a group begin after a place.
fn names_begin_by(group: &NameGroup, place: usize) -> bool {
    match group.names.as_slice().first() {
        Some(name) => name.place() <= place,
        None => true,
    }
}

/// Whether the variables of a group begin after a place.
fn variables_begin_by(group: &VariableGroup, place: usize) -> bool {
    match group.variables.as_slice().first() {
        Some(variable) => variable.place() <= place,
        None => true,
    }
}

/// The name of a typed list at a place.
pub fn typed_name_at(groups: &[NameGroup], place: usize) -> Option<&Name>
    ensures { IfSome result (λ x. DeclaresName groups.now place) }
{
    let group = last_of(groups, groups.partition_point(|g| names_begin_by(g, place)))?;
    name_at(group.names.as_slice(), place)
}

/// The name or the type of a typed list at a place.
pub fn typed_or_type_at(groups: &[NameGroup], place: usize) -> Option<&Name>
    ensures { IfSome result (λ x. DeclaresName groups.now place ⊎ WritesType groups.now place) }
{
    let group = last_of(groups, groups.partition_point(|g| names_begin_by(g, place)))?;
    match &group.of_type {
        Some(name) if name.place() == place => Some(name),
        _ => name_at(group.names.as_slice(), place),
    }
}

/// The variable of a typed list at a place.
pub fn typed_variable_at(groups: &[VariableGroup], place: usize) -> Option<&Variable>
    ensures { IfSome result (λ x. DeclaresVariable groups.now place) }
{
    let group = last_of(
        groups,
        groups.partition_point(|g| variables_begin_by(g, place)),
    )?;
    variable_at(group.variables.as_slice(), place)
}

/// The last predicate whose name doesn't stand after a place.
pub fn predicate_by(predicates: &[PredicateText], place: usize) -> Option<&PredicateText>
    ensures { IfSome result (λ x. Contains predicates.now x.now) }
{
    last_of(
        predicates,
        predicates.partition_point(|x| x.name.place() <= place),
    )
}

/// The last compound task whose name doesn't stand after a place.
pub fn task_by(tasks: &[TaskText], place: usize) -> Option<&TaskText>
    ensures { IfSome result (λ x. Contains tasks.now x.now) }
{
    last_of(tasks, tasks.partition_point(|x| x.name.place() <= place))
}

/// The last method whose bracket doesn't stand after a place.
pub fn method_by(methods: &[MethodText], place: usize) -> Option<&MethodText>
    ensures { IfSome result (λ x. Contains methods.now x.now) }
{
    last_of(methods, methods.partition_point(|x| x.place <= place))
}

/// The last action whose name doesn't stand after a place.
pub fn action_by(actions: &[ActionText], place: usize) -> Option<&ActionText>
    ensures { IfSome result (λ x. Contains actions.now x.now) }
{
    last_of(
        actions,
        actions.partition_point(|x| x.name.place() <= place),
    )
}

/// The last subtask that doesn't begin after a place.
pub fn subtask_by(subtasks: &[SubtaskText], place: usize) -> Option<&SubtaskText>
    ensures { IfSome result (λ x. Contains subtasks.now x.now) }
{
    last_of(subtasks, subtasks.partition_point(|x| x.place() <= place))
}

/// The last ordering that doesn't begin after a place.
pub fn ordering_by(orderings: &[OrderingText], place: usize) -> Option<&OrderingText>
    ensures { IfSome result (λ x. Contains orderings.now x.now) }
{
    last_of(
        orderings,
        orderings.partition_point(|x| x.before.place() <= place),
    )
}

/// The last atom that doesn't begin after a place.
pub fn atom_by(atoms: &[AtomText], place: usize) -> Option<&AtomText>
    ensures { IfSome result (λ x. Contains atoms.now x.now) }
{
    last_of(atoms, atoms.partition_point(|x| x.name.place() <= place))
}

/// The last equality of which the left side doesn't stand after a place.
pub fn equality_by(equalities: &[EqualityText], place: usize) -> Option<&EqualityText>
    ensures { IfSome result (λ x. Contains equalities.now x.now) }
{
    last_of(
        equalities,
        equalities.partition_point(|x| term_place(&x.left) <= place),
    )
}

/// The last literal that doesn't begin after a place.
pub fn literal_by(literals: &[LiteralText], place: usize) -> Option<&LiteralText>
    ensures { IfSome result (λ x. Contains literals.now x.now) }
{
    last_of(
        literals,
        literals.partition_point(|x| x.atom.name.place() <= place),
    )
}

/// Whether the first word of a literal or an equality doesn't stand after a place.
fn part_begins_by(part: &Condition, place: usize) -> bool {
    match part {
        Condition::Literal(literal) => literal.atom.name.place() <= place,
        Condition::Equality(equality) => term_place(&equality.left) <= place,
        Condition::Forall(_, _) => true,
    }
}

/// Whether the first word of a condition doesn't stand after a place. A `forall` without variables counts as the first
/// part of its body.
fn begins_by(condition: &Condition, place: usize) -> bool {
    match condition {
        Condition::Forall(groups, body) => match groups.as_slice().first() {
            Some(group) => variables_begin_by(group, place),
            None => match body.as_slice().first() {
                Some(first) => part_begins_by(first, place),
                None => true,
            },
        },
        _ => part_begins_by(condition, place),
    }
}

/// The last condition that doesn't begin after a place.
pub fn condition_by(conditions: &[Condition], place: usize) -> Option<&Condition>
    ensures { IfSome result (λ x. Contains conditions.now x.now) }
{
    last_of(
        conditions,
        conditions.partition_point(|x| begins_by(x, place)),
    )
}

/// The position of the argument at a place.
pub fn argument_at(atom: &AtomText, place: usize) -> Option<usize>
    ensures { IfSome result (λ k. (t : Term) → slice_get atom.now.terms k ≡ Some t → place_of_term t ≡ place) }
{
    let terms = atom.terms.as_slice();
    let position = terms
        .partition_point(|x| term_place(x) <= place)
        .checked_sub(1)?;
    let term = terms.get(position)?;
    if term_place(term) == place {
        Some(position)
    } else {
        None
    }
}
