//! Warnings as diagnostics.

ghost use Rattle.std.specs.Prelude.{◌≡◌, ◌∷◌, ◌++◌, [], IfOk, OnOk, option_map};
ghost use Rattle.std.specs.List.{AllZip};
ghost use Rattle.diagnostics.specs.declared.diagnostic.Diagnostic.{Diagnostic as DiagnosticText};
ghost use Rattle.hddl_meaning.specs.declared.fault.Source.TheVariants as side;
ghost use Rattle.hddl_warnings.specs.Told as spec;
ghost use Rattle.hddl_warnings.specs.Told.{TellsWarning};

use crate::first::FirstPlaces;
use crate::spots::{atom_at, spot_at, where_at, word_at};
use crate::warning::{Warning, WarningKind};
use diagnostics::{Diagnostic, Note, Part, Remark, RemarkKind, Severity, Source, Where};
use hddl_meaning::At;
use hddl_words::{ActionText, DomainText, MethodText, Name, ProblemText};
use std::alloc::{AllocError, Global};

/// The texts that warnings speak of, and their trees.
#[derive(Clone, Copy)]
struct Texts<'a> {
    domain: &'a Source<'a>,
    problem: Option<&'a Source<'a>>,
    domain_tree: &'a DomainText,
    problem_tree: Option<&'a ProblemText>,
}

impl<'a> Texts<'a> {
    /// The problem's text, or the domain's where there is no problem.
    fn problem_or_domain(self) -> &'a Source<'a>
        ensures { result.now ≡ spec.text_of self.entry.domain.now (option_map (λ p. p.now) self.entry.problem) side.Problem }
    {
        match self.problem {
            Some(problem) => problem,
            None => self.domain,
        }
    }

    /// The text of a place: the domain's where there is no problem.
    fn source(self, at: At) -> &'a Source<'a>
        ensures { result.now ≡ spec.text_of self.entry.domain.now (option_map (λ p. p.now) self.entry.problem) at.source }
    {
        match at.source {
            hddl_meaning::Source::Domain => self.domain,
            hddl_meaning::Source::Problem => self.problem_or_domain(),
        }
    }
}

/// The name of a warning, as a diagnostic has it.
fn code(kind: WarningKind) -> &'static str
    ensures { result.now ≡ spec.code_of kind }
{
    match kind {
        WarningKind::OtherDomain => "OtherDomain",
        WarningKind::UnusedParameter => "UnusedParameter",
        WarningKind::AddedAndDeleted => "AddedAndDeleted",
        WarningKind::NoMethod => "NoMethod",
        WarningKind::UnusedType => "UnusedType",
        WarningKind::UnusedPredicate => "UnusedPredicate",
        WarningKind::UntestedPredicate => "UntestedPredicate",
        WarningKind::UnusedTask => "UnusedTask",
        WarningKind::UnusedAction => "UnusedAction",
        WarningKind::DeclaredAgain => "DeclaredAgain",
    }
}

/// The name of the last method that is at the place or before it; the names ascend.
fn last_method(methods: &[MethodText], place: usize) -> Option<&Name> {
    let after = methods.partition_point(|method| method.name.place() <= place);
    let method = methods.get(after.checked_sub(1)?)?;
    Some(&method.name)
}

/// The name of the last action that is at the place or before it; the names ascend.
fn last_action(actions: &[ActionText], place: usize) -> Option<&Name> {
    let after = actions.partition_point(|action| action.name.place() <= place);
    let action = actions.get(after.checked_sub(1)?)?;
    Some(&action.name)
}

/// A method or an action in a message.
#[derive(Clone, Copy)]
struct Schema<'a> {
    /// What it is, and a blank.
    kind: &'static str,
    name: &'a [u8],
}

fn method_schema(name: &Name) -> Schema<'_> {
    Schema {
        kind: "method ",
        name: name.text(),
    }
}

fn action_schema(name: &Name) -> Schema<'_> {
    Schema {
        kind: "action ",
        name: name.text(),
    }
}

/// The method or the action around a place.
fn schema_at(domain: &DomainText, place: usize) -> Schema<'_> {
    let method = last_method(domain.methods.as_slice(), place);
    let action = last_action(domain.actions.as_slice(), place);
    match (method, action) {
        (Some(method), Some(action)) if method.place() < action.place() => action_schema(action),
        (Some(method), _) => method_schema(method),
        (None, Some(action)) => action_schema(action),
        (None, None) => Schema {
            kind: "method ",
            name: b"",
        },
    }
}

/// Says that a problem is one of another domain.
fn say_other<'a>(
    parts: &mut Vec<Part<'a>>,
    texts: Texts<'a>,
    word: &'a [u8],
) -> Result<(), AllocError> {
    push_around(parts, "the problem is one of the domain ", word, ", and ")?;
    parts.push(Part::Name(texts.domain_tree.name.text()))?;
    parts.push(Part::Words(" was given"))?;
    Ok(())
}

/// Says of a parameter that it is never used.
fn say_parameter<'a>(
    parts: &mut Vec<Part<'a>>,
    texts: Texts<'a>,
    place: usize,
    word: &'a [u8],
) -> Result<(), AllocError> {
    let schema = schema_at(texts.domain_tree, place);
    push_around(parts, "the parameter ", word, " of ")?;
    parts.push(Part::Words(schema.kind))?;
    parts.push(Part::Name(schema.name))?;
    parts.push(Part::Words(" is never used"))?;
    Ok(())
}

/// Says of an effect that its atom is added and deleted.
fn say_effect<'a>(
    parts: &mut Vec<Part<'a>>,
    texts: Texts<'a>,
    place: usize,
) -> Result<(), AllocError> {
    let schema = schema_at(texts.domain_tree, place);
    push_around(parts, schema.kind, schema.name, " adds and deletes ")?;
    parts.push(Part::Name(atom_at(texts.domain, place)))?;
    Ok(())
}

/// The words before the named word in a message with one word.
fn words_before(kind: WarningKind) -> &'static str {
    match kind {
        WarningKind::NoMethod => "no method decomposes the task ",
        WarningKind::UnusedType => "nothing has the type ",
        WarningKind::UnusedPredicate | WarningKind::UntestedPredicate => "the predicate ",
        WarningKind::UnusedTask => "nothing has the task ",
        WarningKind::UnusedAction => "nothing has the action ",
        WarningKind::DeclaredAgain => "the object ",
        _ => "",
    }
}

/// The words after the named word in a message with one word.
fn words_after(kind: WarningKind) -> &'static str {
    match kind {
        WarningKind::UnusedPredicate => " is never used",
        WarningKind::UntestedPredicate => " is set, and nothing tests it",
        WarningKind::UnusedTask | WarningKind::UnusedAction => " as a subtask",
        WarningKind::DeclaredAgain => " is declared twice",
        _ => "",
    }
}

/// What a warning says, about the word at its place.
fn message_of<'a>(
    alloc: Global,
    texts: Texts<'a>,
    warning: &Warning,
) -> Result<Vec<Part<'a>>, AllocError> {
    let place = warning.at.place;
    let word = word_at(texts.source(warning.at), place);
    let mut parts = Vec::new(alloc);
    match warning.kind {
        WarningKind::OtherDomain => {
            say_other(&mut parts, texts, word)?;
        }
        WarningKind::UnusedParameter => {
            say_parameter(&mut parts, texts, place, word)?;
        }
        WarningKind::AddedAndDeleted => {
            say_effect(&mut parts, texts, place)?;
        }
        kind => {
            push_around(&mut parts, words_before(kind), word, words_after(kind))?;
        }
    }
    Ok(parts)
}

/// Adds a name with words around it.
fn push_around<'a>(
    parts: &mut Vec<Part<'a>>,
    before: &'a str,
    name: &'a [u8],
    after: &'a str,
) -> Result<(), AllocError> {
    parts.push(Part::Words(before))?;
    parts.push(Part::Name(name))?;
    parts.push(Part::Words(after))?;
    Ok(())
}

/// Words alone.
fn words<'a>(alloc: Global, words: &'a str) -> Result<Vec<Part<'a>>, AllocError> {
    let mut parts = Vec::new(alloc);
    if !words.is_empty() {
        parts.push(Part::Words(words))?;
    }
    Ok(parts)
}

/// The label beside the carets.
fn label_of(kind: WarningKind) -> &'static str {
    match kind {
        WarningKind::AddedAndDeleted => "it is true afterwards",
        WarningKind::DeclaredAgain => "it has both types",
        _ => "",
    }
}

/// What is remarked without a place.
fn remarks_of<'a>(alloc: Global, kind: WarningKind) -> Result<Vec<Remark<'a>>, AllocError> {
    let mut remarks = Vec::new(alloc);
    match kind {
        WarningKind::UnusedParameter => {
            remarks.push(Remark {
                kind: RemarkKind::Note,
                message: words(alloc, "each of its objects makes a further instance")?,
            })?;
        }
        WarningKind::UnusedAction => {
            remarks.push(Remark {
                kind: RemarkKind::Help,
                message: words(alloc, "an action is carried out only as a part of a task")?,
            })?;
        }
        _ => {}
    }
    Ok(remarks)
}

/// The place of another word that a warning points to, with what is said of it.
fn pointed<'a>(
    alloc: Global,
    texts: Texts<'a>,
    first: &FirstPlaces,
    warning: &Warning,
) -> Result<Option<(At, &'static str)>, AllocError> {
    let word = word_at(texts.source(warning.at), warning.at.place);
    match warning.kind {
        WarningKind::OtherDomain => {
            let at = At {
                source: hddl_meaning::Source::Domain,
                place: texts.domain_tree.name.place(),
            };
            Ok(Some((at, "the name of the domain")))
        }
        WarningKind::NoMethod => {
            let at = first.subtask(alloc, word)?;
            Ok(at.map(|at| (at, "what has it as a subtask has no plan")))
        }
        WarningKind::DeclaredAgain => {
            let at = first.object(alloc, word)?;
            Ok(at.map(|at| (at, "the first declaration")))
        }
        _ => Ok(None),
    }
}

/// The notes of a warning.
fn notes_of<'a>(
    alloc: Global,
    texts: Texts<'a>,
    first: &FirstPlaces,
    warning: &Warning,
) -> Result<Vec<Note<'a>>, AllocError> {
    let mut notes = Vec::new(alloc);
    if let Some((at, said)) = pointed(alloc, texts, first, warning)? {
        if let Some(spot) = spot_at(texts.source(at), at.place) {
            notes.push(Note {
                spot,
                message: words(alloc, said)?,
            })?;
        }
    }
    Ok(notes)
}

/// A warning as a diagnostic, by the first places of names.
fn diagnostic<'a>(
    alloc: Global,
    texts: Texts<'a>,
    first: &FirstPlaces,
    warning: &Warning,
) -> Result<Diagnostic<'a>, AllocError>
    ensures { IfOk result (TellsWarning texts.entry.domain.now (option_map (λ p. p.now) texts.entry.problem) warning.now) }
{
    Ok(Diagnostic {
        severity: Severity::Warning,
        code: code(warning.kind),
        about: where_at(texts.source(warning.at), warning.at.place),
        message: message_of(alloc, texts, warning)?,
        label: words(alloc, label_of(warning.kind))?,
        remarks: remarks_of(alloc, warning.kind)?,
        notes: notes_of(alloc, texts, first, warning)?,
    })
}

/// Adds a warning as a diagnostic.
fn push_diagnostic<'a>(
    alloc: Global,
    diagnostics: &mut Vec<Diagnostic<'a>>,
    texts: Texts<'a>,
    first: &FirstPlaces,
    warning: &Warning,
) -> Result<(), AllocError>
    ensures { OnOk result ((d : DiagnosticText) × TellsWarning texts.entry.domain.now (option_map (λ p. p.now) texts.entry.problem) warning.now d
        × (diagnostics.new.items ≡ diagnostics.old.items ++ d ∷ [])) }
{
    let made = diagnostic(alloc, texts, first, warning)?;
    diagnostics.push(made)?;
    Ok(())
}

/// Each of the warnings as a diagnostic, by the first places of names.
fn diagnostics_of<'a>(
    alloc: Global,
    texts: Texts<'a>,
    first: &FirstPlaces,
    warnings: &[Warning],
) -> Result<Vec<Diagnostic<'a>>, AllocError>
    ensures { IfOk result (λ ds. AllZip (TellsWarning texts.entry.domain.now (option_map (λ p. p.now) texts.entry.problem)) warnings.now ds.items) }
{
    let mut diagnostics = Vec::with_capacity(alloc, warnings.len())?;
    for warning in warnings {
        push_diagnostic(alloc, &mut diagnostics, texts, first, warning)?;
    }
    Ok(diagnostics)
}

/// A warning as a diagnostic: of severity `Warning`, with the name of its kind as the code, about its place. A place past
/// the end of a text is shown at its end. The trees are those of the texts. It takes time that is linear in the texts;
/// `warning_diagnostics` takes that once for many. An error where memory was refused.
pub fn warning_diagnostic<'a>(
    alloc: Global,
    domain: &'a Source<'a>,
    problem: Option<&'a Source<'a>>,
    domain_tree: &'a DomainText,
    problem_tree: Option<&'a ProblemText>,
    warning: &Warning,
) -> Result<Diagnostic<'a>, AllocError>
    ensures { IfOk result (TellsWarning domain.now (option_map (λ p. p.now) problem.entry) warning.now) }
{
    let texts = Texts {
        domain,
        problem,
        domain_tree,
        problem_tree,
    };
    let first = FirstPlaces::of(alloc, domain_tree, problem_tree)?;
    diagnostic(alloc, texts, &first, warning)
}

/// Each of the warnings as a diagnostic, in their order.
pub fn warning_diagnostics<'a>(
    alloc: Global,
    domain: &'a Source<'a>,
    problem: Option<&'a Source<'a>>,
    domain_tree: &'a DomainText,
    problem_tree: Option<&'a ProblemText>,
    warnings: &[Warning],
) -> Result<Vec<Diagnostic<'a>>, AllocError>
    ensures { IfOk result (λ ds. AllZip (TellsWarning domain.now (option_map (λ p. p.now) problem.entry)) warnings.now ds.items) }
{
    let texts = Texts {
        domain,
        problem,
        domain_tree,
        problem_tree,
    };
    let first = FirstPlaces::of(alloc, domain_tree, problem_tree)?;
    diagnostics_of(alloc, texts, &first, warnings)
}
