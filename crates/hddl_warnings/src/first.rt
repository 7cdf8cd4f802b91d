//! The first places of names, which notes point to.

use hddl_meaning::{At, Source};
use hddl_names::fold;
use hddl_scope::{Mention, Numbers, names_in};
use hddl_words::{DomainText, NameGroup, NetworkText, ProblemText};
use std::alloc::{AllocError, Global};

/// The first subtask of each name, and the first declaration of each object, by their places in the two texts.
pub(crate) struct FirstPlaces {
    domain_subtasks: Numbers,
    problem_subtasks: Numbers,
    constants: Numbers,
    objects: Numbers,
}

impl Drop for FirstPlaces {
    fn drop(self) {
        let FirstPlaces {
            domain_subtasks: _,
            problem_subtasks: _,
            constants: _,
            objects: _,
        } = self;
    }
}

/// Keeps a place for a text, unless it has one.
fn note(alloc: Global, places: &mut Numbers, text: &[u8], place: usize) -> Result<(), AllocError> {
    if places.get(text).is_some() {
        return Ok(());
    }
    places.add(alloc, text, place)?;
    Ok(())
}

/// Keeps the first places of names.
fn note_all(
    alloc: Global,
    places: &mut Numbers,
    mentions: &[Mention<'_>],
) -> Result<(), AllocError> {
    for mention in mentions {
        note(alloc, places, mention.text(), mention.place())?;
    }
    Ok(())
}

/// Keeps the first places of the names of subtasks.
fn note_subtasks(
    alloc: Global,
    places: &mut Numbers,
    network: &NetworkText,
) -> Result<(), AllocError> {
    for subtask in network.subtasks.as_slice() {
        let name = &subtask.task.name;
        let text = fold(alloc, name.text())?;
        note(alloc, places, text.as_slice(), name.place())?;
    }
    Ok(())
}

/// A place in the domain, or else one in the problem.
fn either(domain: Option<usize>, problem: Option<usize>) -> Option<At> {
    match (domain, problem) {
        (Some(place), _) => Some(At {
            source: Source::Domain,
            place,
        }),
        (None, Some(place)) => Some(At {
            source: Source::Problem,
            place,
        }),
        (None, None) => None,
    }
}

/// Keeps the first places of the names of typed lists.
fn note_groups(
    alloc: Global,
    places: &mut Numbers,
    groups: &[NameGroup],
) -> Result<(), AllocError> {
    let names = names_in(alloc, groups)?;
    note_all(alloc, places, &names)
}

impl FirstPlaces {
    /// No places.
    fn empty(alloc: Global) -> FirstPlaces {
        FirstPlaces {
            domain_subtasks: Numbers::new(alloc),
            problem_subtasks: Numbers::new(alloc),
            constants: Numbers::new(alloc),
            objects: Numbers::new(alloc),
        }
    }

    /// Adds those in a domain.
    fn note_domain(&mut self, alloc: Global, domain: &DomainText) -> Result<(), AllocError> {
        for method in domain.methods.as_slice() {
            note_subtasks(alloc, &mut self.domain_subtasks, &method.network)?;
        }
        note_groups(alloc, &mut self.constants, domain.constants.as_slice())
    }

    /// Adds those in a problem.
    fn note_problem(&mut self, alloc: Global, problem: &ProblemText) -> Result<(), AllocError> {
        note_subtasks(alloc, &mut self.problem_subtasks, &problem.htn.network)?;
        note_groups(alloc, &mut self.objects, problem.objects.as_slice())
    }

    /// Adds those in a domain, and in a problem, if there is one.
    fn note_texts(
        &mut self,
        alloc: Global,
        domain: &DomainText,
        problem: Option<&ProblemText>,
    ) -> Result<(), AllocError> {
        self.note_domain(alloc, domain)?;
        match problem {
            Some(problem) => self.note_problem(alloc, problem),
            None => Ok(()),
        }
    }

    /// The first places in a domain, and with a problem in both.
    pub(crate) fn of(
        alloc: Global,
        domain: &DomainText,
        problem: Option<&ProblemText>,
    ) -> Result<FirstPlaces, AllocError> {
        let mut places = FirstPlaces::empty(alloc);
        places.note_texts(alloc, domain, problem)?;
        Ok(places)
    }

    /// The first subtask of a name.
    pub(crate) fn subtask(&self, alloc: Global, name: &[u8]) -> Result<Option<At>, AllocError> {
        let text = fold(alloc, name)?;
        let text = text.as_slice();
        Ok(either(
            self.domain_subtasks.get(text),
            self.problem_subtasks.get(text),
        ))
    }

    /// The first declaration of an object.
    pub(crate) fn object(&self, alloc: Global, name: &[u8]) -> Result<Option<At>, AllocError> {
        let text = fold(alloc, name)?;
        let text = text.as_slice();
        Ok(either(self.constants.get(text), self.objects.get(text)))
    }
}
