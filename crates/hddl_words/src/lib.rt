//! The words of an HDDL text, its brackets, the operators with which a grammar over words is written and read, and the
//! trees that are read: plain data with public parts, in which every name keeps its place.
#![tactic(auto)]

mod brackets;
mod class;
mod condition;
mod cursor;
mod domain;
mod fault;
mod items;
mod lexer;
mod name;
mod network;
mod problem;
mod requirement;
mod term;
mod token;
mod variable;

pub use brackets::check_brackets;
pub use class::{Class, Keyword, class_of, is_same};
pub use condition::{Condition, EqualityText, LiteralText};
pub use cursor::{Cursor, Stop};
pub use domain::{ActionText, DomainText, MethodText, PredicateText, TaskText};
pub use fault::TextFault;
pub use items::Items;
pub use lexer::lex;
pub use name::Name;
pub use network::{NetworkText, OrderingText, SubtaskText};
pub use problem::{HtnText, ProblemText};
pub use requirement::Requirement;
pub use term::{AtomText, NameGroup, Term, VariableGroup};
pub use token::{Kind, Token};
pub use variable::Variable;
