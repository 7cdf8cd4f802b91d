//! What was read of a plan file so far.

ghost use Rattle.std.specs.Prelude.{◌≡◌, ◌≤◌, true, false, length, map, OnOk, IfOk, IfErr};
ghost use Rattle.std.specs.List.{list_all};
ghost use Rattle.plan_text.specs.Line as spec;
ghost use Rattle.plan_text.specs.Adding.{with_line, IsKindFault};
ghost use Rattle.plan_text.specs.Seen.{seen_all, seen_kind};

use crate::fault::PlanFault;
use crate::line::LineKind;
use crate::number::{number_of, numbers_of};
use crate::piece::Piece;
use crate::plan_file::{ActionLine, DecompositionLine};
use crate::word::Word;
use std::alloc::{AllocError, Global};
use std::marker::Model;

/// The lines that were read, and the roots where a line named them.
#[derive(Drop)]
pub(crate) struct Draft {
    pub actions: Vec<ActionLine>,
    pub roots: Option<Vec<u64>>,
    pub decompositions: Vec<DecompositionLine>,
}

impl Model for Draft {
    ghost use Rattle.plan_text.specs.Line.{Contents};
    ghost use Rattle.plan_text.specs.Adding.{root_lists_in};

    ghost Value = { Contents };

    ghost view = { λ d. record { actions = d.actions.items; root_lists = root_lists_in d.roots; decompositions = d.decompositions.items } };
}

impl Draft {
    ghost use Rattle.std.specs.Prelude.{[]};

    pub fn new(alloc: Global) -> Draft
        ensures { result ≡ spec.contents_of [] }
    {
        Draft {
            actions: Vec::new(alloc),
            roots: None,
            decompositions: Vec::new(alloc),
        }
    }

    /// Adds the content of the line that begins at the place.
    pub fn add(
        &mut self,
        alloc: Global,
        place: usize,
        line: LineKind<'_, '_>,
    ) -> Result<(), PlanFault>
        requires { list_all spec.is_number (spec.numbers_of (seen_kind line)) ≡ true }
        ensures added { OnOk result (self.new ≡ with_line self.old (seen_kind line.entry)) }
        ensures small { OnOk result (list_all spec.is_small (spec.numbers_of (seen_kind line.entry)) ≡ true) }
        ensures once { OnOk result (length self.new.root_lists ≤ 1) }
        ensures fault { IfErr result (λ fault. IsKindFault fault place self.old.root_lists (seen_kind line.entry)) }
    {
        match line {
            LineKind::Blank => Ok(()),
            LineKind::Roots(numbers) => {
                if self.roots.is_some() {
                    return Err(PlanFault::TwoRoots(place));
                }
                self.roots = Some(numbers_of(alloc, numbers)?);
                Ok(())
            }
            LineKind::Action {
                id,
                name,
                arguments,
            } => {
                let id = number_of(&id)?;
                let name = Word::folded(alloc, name.bytes)?;
                let arguments = names_of(alloc, arguments)?;
                self.actions.push(ActionLine::new(id, name, arguments))?;
                Ok(())
            }
            LineKind::Decomposition {
                id,
                task,
                arguments,
                method,
                children,
            } => {
                let id = number_of(&id)?;
                let children = numbers_of(alloc, children)?;
                let task = Word::folded(alloc, task.bytes)?;
                let arguments = names_of(alloc, arguments)?;
                let method = Word::folded(alloc, method.bytes)?;
                let line = DecompositionLine::new(id, task, arguments, method, children);
                self.decompositions.push(line)?;
                Ok(())
            }
        }
    }
}

/// The words, with the letters A to Z in lower case.
fn names_of(alloc: Global, words: &[Piece<'_>]) -> Result<Vec<Word>, AllocError>
    ensures { IfOk result (λ names. names.items ≡ map spec.folded (seen_all words.now)) }
{
    let mut names = Vec::with_capacity(alloc, words.len())?;
    for word in words {
        names.push(Word::folded(alloc, word.bytes)?)?;
    }
    Ok(names)
}
