//! Parts of messages: sections, counts, typed lists and declarations.

ghost use Rattle.std.specs.Prelude.{◌≡◌, ◌∷◌, [], ◌++◌, OnOk};
ghost use Rattle.pair_messages.specs.Counts.{number_of, numbers_of};
ghost use Rattle.pair_messages.specs.Stands.{section_parameters};

use crate::variables::MOST_LOOKED_AT;
use diagnostics::Part;
use hddl_words::{ActionText, HtnText, MethodText, Name, Variable, VariableGroup};
use std::alloc::{AllocError, Global};
use std::str;

/// The most parameters of a list that are written.
pub(crate) const MOST_WRITTEN: usize = 32;

/// Bytes of a text as words, which stand without backticks.
pub(crate) fn plain<'a>(bytes: &'a [u8]) -> Part<'a>
    ensures { number_of result ≡ [] }
{
    match str::from_utf8(bytes) {
        Ok(text) => Part::Words(text),
        Err(_) => Part::Words("?"),
    }
}

/// What declares parameters.
#[derive(Clone, Copy)]
pub(crate) enum Section<'a> {
    Method(&'a MethodText),
    Action(&'a ActionText),
    Htn(&'a HtnText),
    /// The initial facts and the goal, which have no parameters.
    States,
}

impl<'a> Section<'a> {
    /// Its parameters.
    pub(crate) fn parameters(self) -> &'a [VariableGroup]
        ensures { result.now ≡ section_parameters self.entry }
    {
        match self {
            Section::Method(method) => method.parameters.as_slice(),
            Section::Action(action) => action.parameters.as_slice(),
            Section::Htn(htn) => htn.parameters.as_slice(),
            Section::States => &[],
        }
    }

    /// The place of its name, or of its bracket where it has none.
    pub(crate) fn place(self) -> Option<usize> {
        match self {
            Section::Method(method) => Some(method.name.place()),
            Section::Action(action) => Some(action.name.place()),
            Section::Htn(htn) => Some(htn.place),
            Section::States => None,
        }
    }
}

/// What a section is called: words, and its name if it has one.
pub(crate) fn section_parts<'a>(section: Section<'a>) -> (Part<'a>, Part<'a>) {
    match section {
        Section::Method(method) => (Part::Words("method "), Part::Name(method.name.text())),
        Section::Action(action) => (Part::Words("action "), Part::Name(action.name.text())),
        Section::Htn(_) => (Part::Words("`:htn`"), Part::Words("")),
        Section::States => (Part::Words("the problem"), Part::Words("")),
    }
}

/// Adds a number of things, as `1 type` and `2 types`. An error where memory was refused.
pub fn push_count<'a>(
    parts: &mut Vec<Part<'a>>,
    count: usize,
    one: &'a str,
    many: &'a str,
) -> Result<(), AllocError>
    ensures { OnOk result (numbers_of parts.new.items ≡ numbers_of parts.old.items ++ count ∷ []) }
{
    parts.push(Part::Number(count as u64))?;
    parts.push(Part::Words(if count == 1 { one } else { many }))?;
    Ok(())
}

/// How many variables a typed list has; none where it is too long to be counted for each fault.
pub(crate) fn count_variables(groups: &[VariableGroup]) -> Option<usize> {
    if groups.len() > MOST_LOOKED_AT {
        return None;
    }
    let mut count: usize = 0;
    for group in groups {
        count = count.saturating_add(group.variables.len());
    }
    Some(count)
}

/// The type that is written, or `object` where none is.
pub(crate) fn written_type<'a>(of_type: &'a Option<Name>) -> &'a [u8] {
    match of_type {
        Some(name) => name.text(),
        None => b"object",
    }
}

/// Adds a variable with its type, after other words.
fn push_variable<'a>(
    parts: &mut Vec<Part<'a>>,
    before: &'a str,
    variable: &'a Variable,
    of_type: &'a Option<Name>,
) -> Result<(), AllocError> {
    let typed = [
        Part::Words(before),
        plain(variable.text()),
        Part::Words(" - "),
        plain(written_type(of_type)),
    ];
    parts.extend_from_slice(&typed)
}

/// Adds a typed list, as `?a - t ?b - t`, of which 32 variables are written. Before the first one stands `start`.
pub(crate) fn push_typed<'a>(
    parts: &mut Vec<Part<'a>>,
    start: &'a str,
    groups: &'a [VariableGroup],
) -> Result<(), AllocError> {
    let mut written: usize = 0;
    for group in groups {
        for variable in group.variables.as_slice() {
            if written >= MOST_WRITTEN {
                let more: [Part<'a>; 1] = [Part::Words(" ...")];
                return parts.extend_from_slice(&more);
            }
            let before = if written == 0 { start } else { " " };
            push_variable(parts, before, variable, &group.of_type)?;
            written = written.saturating_add(1);
        }
    }
    Ok(())
}

/// That a name is declared with parameters.
pub(crate) fn declared_with<'a>(
    alloc: Global,
    name: &'a Name,
    parameters: &'a [VariableGroup],
) -> Result<Vec<Part<'a>>, AllocError> {
    let mut parts = Vec::from_slice(alloc, &[Part::Words("`("), plain(name.text())])?;
    push_typed(&mut parts, " ", parameters)?;
    parts.push(Part::Words(")` is declared here"))?;
    Ok(parts)
}

/// That a name is declared.
pub(crate) fn declared_here<'a>(
    alloc: Global,
    name: &'a [u8],
) -> Result<Vec<Part<'a>>, AllocError> {
    Vec::from_slice(alloc, &[Part::Name(name), Part::Words(" is declared here")])
}
