//! Words of a plan's lines and of the other texts.

use crate::reason::Mark;
use diagnostics::Role;
use plan_messages::{PlacedPlan, word_from, words_from};

/// Where a line begins, by its number: the action lines first, and then the decomposition lines.
fn line_place(plan: &PlacedPlan<'_>, line: usize) -> usize {
    let actions = plan.file.actions().len();
    let places = if line < actions {
        plan.places.actions.as_slice().get(line)
    } else {
        plan.places.decompositions.as_slice().get(line - actions)
    };
    places.copied().unwrap_or(0)
}

/// The word of a number of the line that begins at a place.
fn word_of(plan: &PlacedPlan<'_>, place: usize, number: usize) -> Mark {
    let mut from = place;
    for _ in 0..number {
        let spot = word_from(plan.text, from);
        from = spot.place.saturating_add(spot.word_len);
    }
    let spot = word_from(plan.text, from);
    Mark {
        role: Role::Plan,
        place: spot.place,
        len: spot.word_len,
    }
}

/// The word of a number of a line. The line's id is word 0.
pub(crate) fn word_at(plan: &PlacedPlan<'_>, line: usize, number: usize) -> Mark {
    word_of(plan, line_place(plan, line), number)
}

/// All words of a line.
pub(crate) fn whole_line(plan: &PlacedPlan<'_>, line: usize) -> Mark {
    let spot = words_from(plan.text, line_place(plan, line));
    Mark {
        role: Role::Plan,
        place: spot.place,
        len: spot.word_len,
    }
}

/// The word of a number of the root line. `root` is word 0.
pub(crate) fn root_word(plan: &PlacedPlan<'_>, number: usize) -> Mark {
    let place = plan.places.roots.as_slice().first().copied().unwrap_or(0);
    word_of(plan, place, number)
}

/// A place of the domain.
pub(crate) fn in_domain(place: usize) -> Mark {
    Mark {
        role: Role::Domain,
        place,
        len: 0,
    }
}

/// A place of the problem.
pub(crate) fn in_problem(place: usize) -> Mark {
    Mark {
        role: Role::Problem,
        place,
        len: 0,
    }
}
