//! Lines of plan files by their numbers.

ghost use Rattle.std.specs.Prelude.{◌≡◌, None};
ghost use Rattle.std.specs.Option.{option_map};
ghost use Rattle.picture_text.specs.Lines as spec;
ghost use Rattle.picture_text.specs.SeenLine.{seen_line};

use plan_text::{ActionLine, DecompositionLine, PlanFile};

/// A line of a plan file that has an id.
#[derive(Clone, Copy)]
pub enum Line<'a> {
    Action(&'a ActionLine),
    Task(&'a DecompositionLine),
}

impl<'a> Line<'a> {
    /// The line's id.
    pub fn id(self) -> u64
        ensures { result ≡ spec.id_of (seen_line self.entry) }
    {
        match self {
            Line::Action(line) => line.id(),
            Line::Task(line) => line.id(),
        }
    }
}

/// The line with a number; none past the last line.
pub fn line_at(file: &PlanFile, number: usize) -> Option<Line<'_>>
    ensures { option_map seen_line result ≡ spec.line_at file.now number }
{
    let actions = file.actions();
    if number < actions.len() {
        return Some(Line::Action(&actions[number]));
    }
    match file.decompositions().get(number - actions.len()) {
        Some(line) => Some(Line::Task(line)),
        None => None,
    }
}

/// The id of the line with a number; 0 past the last line.
pub(crate) fn id_at(file: &PlanFile, number: usize) -> u64
    ensures { result ≡ spec.id_at file.now number }
{
    match line_at(file, number) {
        Some(line) => line.id(),
        None => 0,
    }
}
