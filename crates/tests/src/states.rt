//! States: those of atoms, and those after actions.

use crate::instances::atoms_text;
use htn_task::{Action, Atom, LiteralList, State};
use std::alloc::{AllocError, Global};
use std::test::Fail;

/// An atom by the numbers of its predicate and its objects.
#[derive(Clone, Copy)]
struct Fact {
    predicate: u16,
    objects: &'static [u16],
}

const A_TO_B: Fact = Fact {
    predicate: 0,
    objects: &[0, 1],
};

const B_TO_C: Fact = Fact {
    predicate: 0,
    objects: &[1, 2],
};

const AT_A: Fact = Fact {
    predicate: 1,
    objects: &[3, 0],
};

const AT_B: Fact = Fact {
    predicate: 1,
    objects: &[3, 1],
};

const P: Fact = Fact {
    predicate: 0,
    objects: &[],
};

const Q: Fact = Fact {
    predicate: 1,
    objects: &[],
};

// The state in which just these atoms are true.
fn state_of(alloc: Global, facts: &[Fact]) -> Result<State, AllocError> {
    let mut atoms = Vec::new(alloc);
    for fact in facts {
        atoms.push(Atom::new(alloc, fact.predicate, fact.objects)?)?;
    }
    State::of(alloc, atoms.as_slice())
}

// The same in text.
fn state_text(alloc: Global, facts: &[Fact]) -> Result<String, Fail> {
    let state = state_of(alloc, facts)?;
    atoms_text(alloc, &state)
}

// The atoms stand in order of their numbers, none twice.
#[test]
fn states_are_of_atoms(rt: HostRuntime) -> Result<(), Fail> {
    let rows: [(&[Fact], &str); 3] = [
        (&[], ""),
        (&[AT_A, B_TO_C, A_TO_B, AT_A], " 0[0, 1] 0[1, 2] 1[3, 0]"),
        (&[Q, A_TO_B, P], " 0[] 0[0, 1] 1[]"),
    ];
    for (facts, text) in rows {
        let state = state_text(rt.alloc(), facts)?;
        assert_eq!(rt; state.as_str(), text);
    }
    Ok(())
}

// The atoms that are true after an action with these deletes and adds.
fn after_text(
    alloc: Global,
    before: &[Fact],
    deletes: &[Fact],
    adds: &[Fact],
) -> Result<String, Fail> {
    let action = Action {
        precondition: LiteralList::of(Vec::new(alloc)),
        deletes: state_of(alloc, deletes)?,
        adds: state_of(alloc, adds)?,
    };
    let before = state_of(alloc, before)?;
    atoms_text(alloc, &before.after(&action)?)
}

// A truck drives from a to b. What is both deleted and added is true, and what is false can be deleted.
#[test]
fn actions_change_states(rt: HostRuntime) -> Result<(), Fail> {
    let rows: [(&[Fact], &[Fact], &[Fact], &str); 5] = [
        (
            &[A_TO_B, B_TO_C, AT_A],
            &[AT_A],
            &[AT_B],
            " 0[0, 1] 0[1, 2] 1[3, 1]",
        ),
        (&[], &[P], &[P], " 0[]"),
        (&[P], &[P], &[P], " 0[]"),
        (&[P], &[Q], &[P], " 0[]"),
        (&[P], &[P], &[], ""),
    ];
    for (before, deletes, adds, text) in rows {
        let after = after_text(rt.alloc(), before, deletes, adds)?;
        assert_eq!(rt; after.as_str(), text);
    }
    Ok(())
}
