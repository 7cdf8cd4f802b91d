//! The conditions of a schema on the values of its parameters.
ghost use Rattle.std.specs.Prelude.{◌≡◌, ◌++◌, IfOk, OnOk, length};
ghost use Rattle.std.specs.List.{filter, flat_map, zip};
ghost use Rattle.htn_model.specs.Instances as model;
ghost use Rattle.htn_task.specs.Formulas.{formula_of, formulas_view};
ghost use Rattle.htn_task.specs.Views.{term_of, terms_of};
ghost use Rattle.htn_ground.specs.Places.{among, pinned, places_of};

use htn_task::{
    ActionSchema, AtomSchema, EqualitySchema, Formula, FormulaList, InitialSchema, MethodSchema,
    Task, TaskSchema, Term,
};
use std::alloc::{AllocError, Global};
use std::marker::Model;

/// An argument with the type of its place.
#[derive(Clone, Copy)]
pub struct Place {
    pub term: Term,
    pub type_number: u16,
}

/// The conditions of a schema on the values of its parameters: the parameters' types, equalities, and the types of the
/// argument places at which parameters and objects are.
pub struct Conditions {
    parameters: Vec<u16>,
    equalities: Vec<EqualitySchema>,
    places: Vec<Place>,
}

impl Drop for Conditions {
    fn drop(self) {
        let Conditions {
            parameters: _,
            equalities: _,
            places: _,
        } = self;
    }
}

impl Model for Conditions {
    ghost use Rattle.htn_model.specs.Instances as model;
    ghost use Rattle.htn_ground.specs.Places.{conditions_code, places_of};

    ghost Value = { model.Conditions };

    ghost coded = { conditions_code };

    ghost view = { λ c. record { parameters = c.parameters.items; equalities = c.equalities.items; places = places_of c.places.items } };
}

impl Conditions {
    /// The types of the parameters.
    pub fn parameters(&self) -> &[u16]
        ensures { result.now ≡ self.now.parameters }
    {
        &self.parameters
    }

    pub fn equalities(&self) -> &[EqualitySchema]
        ensures { result.now ≡ self.now.equalities }
    {
        &self.equalities
    }

    pub fn places(&self) -> &[Place]
        ensures { places_of result.now ≡ self.now.places }
    {
        &self.places
    }
}

/// Whether a term is one of the first `count` parameters, or an object.
pub(crate) fn is_among(count: usize, term: Term) -> bool
    ensures { result ≡ model.is_among count (term_of term) }
{
    match term {
        Term::Parameter(place) => (place as usize) < count,
        Term::Object(_) => true,
    }
}

/// Appends the arguments that are parameters or objects, each with the type of its place.
fn push_places(
    terms: &[Term],
    types: &[u16],
    count: usize,
    places: &mut Vec<Place>,
) -> Result<(), AllocError>
    ensures { OnOk result (places_of places.new.items ≡ places_of places.old.items ++ among count (zip (terms_of terms.now) types.now)) }
{
    for (place, term) in terms.iter().enumerate() {
        if let Some(type_number) = types.get(place) {
            if is_among(count, *term) {
                places.push(Place {
                    term: *term,
                    type_number: *type_number,
                })?;
            }
        }
    }
    Ok(())
}

fn push_atom_places(
    task: &Task,
    atom: &AtomSchema,
    count: usize,
    places: &mut Vec<Place>,
) -> Result<(), AllocError>
    ensures { OnOk result (places_of places.new.items ≡ places_of places.old.items ++ among count (model.atom_places task.now atom.now)) }
{
    push_places(
        atom.arguments(),
        task.predicate_types(atom.predicate()),
        count,
        places,
    )?;
    Ok(())
}

fn push_task_places(
    task: &Task,
    schema: &TaskSchema,
    count: usize,
    places: &mut Vec<Place>,
) -> Result<(), AllocError>
    ensures { OnOk result (places_of places.new.items ≡ places_of places.old.items ++ among count (model.task_places task.now schema.now)) }
{
    push_places(
        schema.arguments(),
        task.task_types(schema.name()),
        count,
        places,
    )?;
    Ok(())
}

/// Appends the places of all atoms of a formula, also those under a `forall`.
fn push_formula_places(
    task: &Task,
    formula: &Formula,
    count: usize,
    places: &mut Vec<Place>,
) -> Result<(), AllocError>
    ensures { OnOk result (places_of places.new.items ≡ places_of places.old.items ++ among count (model.formula_places task.now (formula_of formula.now))) }
{
    match formula {
        Formula::Literal(_, atom) => push_atom_places(task, atom, count, places)?,
        Formula::Equation(_) => {}
        Formula::ForAll(_, body) => {
            for part in body {
                push_formula_places(task, part, count, places)?;
            }
        }
    }
    Ok(())
}

fn push_conjunction_places(
    task: &Task,
    formulas: &FormulaList,
    count: usize,
    places: &mut Vec<Place>,
) -> Result<(), AllocError>
    ensures { OnOk result (places_of places.new.items ≡ places_of places.old.items ++ among count (flat_map (model.formula_places task.now) formulas.now)) }
{
    for formula in formulas.as_slice() {
        push_formula_places(task, formula, count, places)?;
    }
    Ok(())
}

fn push_all_atom_places(
    task: &Task,
    atoms: &[AtomSchema],
    count: usize,
    places: &mut Vec<Place>,
) -> Result<(), AllocError>
    ensures { OnOk result (places_of places.new.items ≡ places_of places.old.items ++ among count (flat_map (model.atom_places task.now) atoms.now)) }
{
    for atom in atoms {
        push_atom_places(task, atom, count, places)?;
    }
    Ok(())
}

fn push_all_task_places(
    task: &Task,
    schemas: &[TaskSchema],
    count: usize,
    places: &mut Vec<Place>,
) -> Result<(), AllocError>
    ensures { OnOk result (places_of places.new.items ≡ places_of places.old.items ++ among count (flat_map (model.task_places task.now) schemas.now)) }
{
    for schema in schemas {
        push_task_places(task, schema, count, places)?;
    }
    Ok(())
}

/// A copy of an equality.
fn copied(equality: &EqualitySchema) -> EqualitySchema
    ensures { result ≡ equality.now }
{
    EqualitySchema::new(equality.is_positive(), equality.left(), equality.right())
}

/// Appends the equalities of a conjunction that are outside every `forall`.
fn push_equalities(
    formulas: &FormulaList,
    equalities: &mut Vec<EqualitySchema>,
) -> Result<(), AllocError>
    ensures { OnOk result (equalities.new.items ≡ equalities.old.items ++ model.equalities_of formulas.now) }
{
    for formula in formulas.as_slice() {
        if let Formula::Equation(equality) = formula {
            equalities.push(copied(equality))?;
        }
    }
    Ok(())
}

fn push_constraints(
    constraints: &[EqualitySchema],
    equalities: &mut Vec<EqualitySchema>,
) -> Result<(), AllocError>
    ensures { OnOk result (equalities.new.items ≡ equalities.old.items ++ constraints.now) }
{
    for equality in constraints {
        equalities.push(copied(equality))?;
    }
    Ok(())
}

/// The equalities of a method.
fn method_equalities(
    alloc: Global,
    method: &MethodSchema,
) -> Result<Vec<EqualitySchema>, AllocError>
    ensures { IfOk result (λ v. v.items ≡ model.equalities_of method.now.precondition ++ method.now.constraints) }
{
    let mut equalities = Vec::new(alloc);
    push_equalities(method.precondition(), &mut equalities)?;
    push_constraints(method.constraints(), &mut equalities)?;
    Ok(equalities)
}

/// The places of a method.
fn method_places(
    alloc: Global,
    task: &Task,
    method: &MethodSchema,
) -> Result<Vec<Place>, AllocError>
    ensures { IfOk result (λ v. places_of v.items ≡ (model.method_conditions task.now method.now).places) }
{
    let count = method.parameters().len();
    let mut places = Vec::new(alloc);
    push_task_places(task, method.task(), count, &mut places)?;
    push_all_task_places(task, method.network().subtasks(), count, &mut places)?;
    push_conjunction_places(task, method.precondition(), count, &mut places)?;
    Ok(places)
}

/// The conditions of a method on its parameters.
pub fn method_conditions(
    alloc: Global,
    task: &Task,
    method: &MethodSchema,
) -> Result<Conditions, AllocError>
    ensures { IfOk result (λ c. c ≡ model.method_conditions task.now method.now) }
{
    let parameters = Vec::from_slice(alloc, method.parameters())?;
    let equalities = method_equalities(alloc, method)?;
    let places = method_places(alloc, task, method)?;
    Ok(Conditions {
        parameters,
        equalities,
        places,
    })
}

/// The places of an action.
fn action_places(
    alloc: Global,
    task: &Task,
    action: &ActionSchema,
) -> Result<Vec<Place>, AllocError>
    ensures { IfOk result (λ v. places_of v.items ≡ (model.action_conditions task.now action.now).places) }
{
    let count = action.parameters().len();
    let mut places = Vec::new(alloc);
    push_conjunction_places(task, action.precondition(), count, &mut places)?;
    push_all_atom_places(task, action.deletes(), count, &mut places)?;
    push_all_atom_places(task, action.adds(), count, &mut places)?;
    Ok(places)
}

/// The conditions of an action on its parameters.
pub(crate) fn action_conditions(
    alloc: Global,
    task: &Task,
    action: &ActionSchema,
) -> Result<Conditions, AllocError>
    ensures { IfOk result (λ c. c ≡ model.action_conditions task.now action.now) }
{
    let parameters = Vec::from_slice(alloc, action.parameters())?;
    let mut equalities = Vec::new(alloc);
    push_equalities(action.precondition(), &mut equalities)?;
    let places = action_places(alloc, task, action)?;
    Ok(Conditions {
        parameters,
        equalities,
        places,
    })
}

/// The places of the initial network.
fn initial_places(
    alloc: Global,
    task: &Task,
    initial: &InitialSchema,
) -> Result<Vec<Place>, AllocError>
    ensures { IfOk result (λ v. places_of v.items ≡ (model.initial_conditions task.now initial.now).places) }
{
    let count = initial.parameters().len();
    let mut places = Vec::new(alloc);
    push_all_task_places(task, initial.network().subtasks(), count, &mut places)?;
    Ok(places)
}

/// The conditions of the initial network on its parameters.
pub fn initial_conditions(
    alloc: Global,
    task: &Task,
    initial: &InitialSchema,
) -> Result<Conditions, AllocError>
    ensures { IfOk result (λ c. c ≡ model.initial_conditions task.now initial.now) }
{
    let parameters = Vec::from_slice(alloc, initial.parameters())?;
    let mut equalities = Vec::new(alloc);
    push_constraints(initial.constraints(), &mut equalities)?;
    let places = initial_places(alloc, task, initial)?;
    Ok(Conditions {
        parameters,
        equalities,
        places,
    })
}

/// Appends that each term is the object beside it.
fn push_pinned(
    terms: &[Term],
    objects: &[u16],
    equalities: &mut Vec<EqualitySchema>,
) -> Result<(), AllocError>
    requires { length terms.now ≡ length objects.now }
    ensures { OnOk result (equalities.new.items ≡ equalities.old.items ++ pinned (terms_of terms.now) objects.now) }
{
    for (place, term) in terms.iter().enumerate() {
        let object = Term::Object(objects[place]);
        equalities.push(EqualitySchema::new(true, *term, object))?;
    }
    Ok(())
}

/// The conditions under which terms stand for given objects, besides those that there are.
pub(crate) fn pin(
    mut conditions: Conditions,
    terms: &[Term],
    objects: &[u16],
) -> Result<Conditions, AllocError>
    requires { length terms.now ≡ length objects.now }
    ensures { IfOk result (λ c. c ≡ record conditions { equalities = conditions.equalities ++ pinned (terms_of terms.now) objects.now }) }
{
    push_pinned(terms, objects, &mut conditions.equalities)?;
    Ok(conditions)
}
