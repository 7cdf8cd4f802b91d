//! Reads HDDL texts: exactly the domains and problems that the grammar spells, each as its one tree, and every other
//! text refused with the place of its first fault.
#![tactic(auto)]

mod conditions;
mod domain;
mod lists;
mod networks;
mod parts;
mod problem;
mod sections;
mod terms;
mod text;
mod words;

pub use hddl_words::{
    ActionText, AtomText, Condition, DomainText, EqualityText, HtnText, Items, Kind, LiteralText,
    MethodText, Name, NameGroup, NetworkText, OrderingText, PredicateText, ProblemText,
    Requirement, SubtaskText, TaskText, Term, TextFault, Token, Variable, VariableGroup, lex,
};
pub use text::{read_domain, read_problem, texts_spell_one_tree};
