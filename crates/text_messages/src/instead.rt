//! What to write in place of what the language leaves out.

use diagnostics::Role;
use hddl_words::is_same;

const NUMBERS: &str = "numbers are left out; plans are counted in nodes";

/// Words that are left out, each with what to write.
const INSTEAD: [(&[u8], &str); 13] = [
    (
        b"or",
        "give the task one method, or one action, for each alternative",
    ),
    (
        b"imply",
        "give the task one method, or one action, for each case",
    ),
    (
        b"exists",
        "make the variable a parameter of the method or action",
    ),
    (
        b"when",
        "write one action for each case, and a method that chooses between them",
    ),
    (
        b"either",
        "declare a type above both in `:types`, and name that",
    ),
    (b"increase", NUMBERS),
    (b":functions", NUMBERS),
    (b":metric", NUMBERS),
    (
        b":derived",
        "axioms are left out: write an action, or put the condition where it is used",
    ),
    (
        b":durative-action",
        "times are left out: write an `:action`",
    ),
    (
        b"preference",
        "preferences are left out: what is wanted belongs into the goal",
    ),
    (b":constraints", "state constraints are left out"),
    (
        b"forall",
        "`forall` may stand in preconditions and in the goal alone",
    ),
];

/// What to write in place of a word, in whatever case.
pub(crate) fn instead_of(role: Role, word: &[u8]) -> Option<&'static str> {
    if role == Role::Problem && is_same(word, b":precondition") {
        return Some("`:htn` has no precondition: give the task to a method that has it");
    }
    for (left_out, instead) in INSTEAD {
        if is_same(word, left_out) {
            return Some(instead);
        }
    }
    None
}
