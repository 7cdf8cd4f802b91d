//! What a word is to the grammar.

ghost use Rattle.std.specs.Prelude.{◌≡◌};
ghost use Rattle.std.specs.Str.{str_eq_ignore_ascii_case};
ghost use Rattle.hddl_words.specs.Class as spec;
ghost use Rattle.hddl_words.specs.Words.{word_of};

use crate::token::{Kind, Token};

/// The keywords of the grammar. Two spellings of one keyword are one here.
#[derive(Clone, Copy, Debug, PartialEq, Eq)]
pub enum Keyword {
    Requirements,
    Types,
    Constants,
    Predicates,
    Task,
    Method,
    Action,
    Parameters,
    Precondition,
    Effect,
    /// `:subtasks` or `:tasks`.
    Subtasks,
    /// `:ordered-subtasks` or `:ordered-tasks`.
    OrderedSubtasks,
    /// `:ordering` or `:order`.
    Ordering,
    Constraints,
    Domain,
    Objects,
    Init,
    Goal,
    Htn,
    /// A keyword that the grammar doesn't have.
    Other,
}

/// What the grammar needs to know of a word.
#[derive(Clone, Copy, Debug, PartialEq, Eq)]
pub enum Class {
    Open,
    Close,
    Variable,
    Keyword(Keyword),
    Minus,
    Equal,
    Less,
    And,
    Not,
    Forall,
    /// A reserved word that the grammar leaves out: `or`, `imply`, `exists`, `when`, `either`, `increase`,
    /// `preference`.
    Reserved,
    /// A name that isn't reserved.
    Name,
}

/// Whether a text is this word, with the letters A to Z folded to a to z.
pub fn is_same(text: &[u8], word: &[u8]) -> bool
    ensures { result ≡ str_eq_ignore_ascii_case text.now word.now }
{
    text.eq_ignore_ascii_case(word)
}

/// The keyword of a part of a section, or else of a section.
fn keyword_of(text: &[u8]) -> Keyword
    ensures { result ≡ spec.keyword_of text.now }
{
    if is_same(text, b":parameters") {
        Keyword::Parameters
    } else if is_same(text, b":precondition") {
        Keyword::Precondition
    } else if is_same(text, b":effect") {
        Keyword::Effect
    } else if is_same(text, b":subtasks") || is_same(text, b":tasks") {
        Keyword::Subtasks
    } else if is_same(text, b":ordered-subtasks") || is_same(text, b":ordered-tasks") {
        Keyword::OrderedSubtasks
    } else if is_same(text, b":ordering") || is_same(text, b":order") {
        Keyword::Ordering
    } else if is_same(text, b":constraints") {
        Keyword::Constraints
    } else {
        section_of(text)
    }
}

/// The keyword of a section.
#[tactic(auto, unfolding(crate::specs::Class::section_of))]
fn section_of(text: &[u8]) -> Keyword
    ensures { result ≡ spec.section_of text.now }
{
    if is_same(text, b":requirements") {
        Keyword::Requirements
    } else if is_same(text, b":types") {
        Keyword::Types
    } else if is_same(text, b":constants") {
        Keyword::Constants
    } else if is_same(text, b":predicates") {
        Keyword::Predicates
    } else if is_same(text, b":task") {
        Keyword::Task
    } else if is_same(text, b":method") {
        Keyword::Method
    } else if is_same(text, b":action") {
        Keyword::Action
    } else if is_same(text, b":domain") {
        Keyword::Domain
    } else if is_same(text, b":objects") {
        Keyword::Objects
    } else if is_same(text, b":init") {
        Keyword::Init
    } else if is_same(text, b":goal") {
        Keyword::Goal
    } else if is_same(text, b":htn") {
        Keyword::Htn
    } else {
        Keyword::Other
    }
}

fn sign_of(text: &[u8]) -> Class
    ensures { result ≡ spec.sign_of text.now }
{
    if is_same(text, b"-") {
        Class::Minus
    } else if is_same(text, b"=") {
        Class::Equal
    } else {
        Class::Less
    }
}

/// Whether a word is reserved and left out of the grammar.
fn is_left_out(text: &[u8]) -> bool
    ensures { result ≡ spec.is_left_out text.now }
{
    is_same(text, b"or")
        || is_same(text, b"imply")
        || is_same(text, b"exists")
        || is_same(text, b"when")
        || is_same(text, b"either")
        || is_same(text, b"increase")
        || is_same(text, b"preference")
}

fn name_class(text: &[u8]) -> Class
    ensures { result ≡ spec.name_class text.now }
{
    if is_same(text, b"and") {
        Class::And
    } else if is_same(text, b"not") {
        Class::Not
    } else if is_same(text, b"forall") {
        Class::Forall
    } else if is_left_out(text) {
        Class::Reserved
    } else {
        Class::Name
    }
}

/// What a word of this kind is to the grammar.
pub(crate) fn class_by(kind: Kind, text: &[u8]) -> Class
    ensures { result ≡ spec.class_by kind text.now }
{
    match kind {
        Kind::Open => Class::Open,
        Kind::Close => Class::Close,
        Kind::Variable => Class::Variable,
        Kind::Keyword => Class::Keyword(keyword_of(text)),
        Kind::Sign => sign_of(text),
        Kind::Name => name_class(text),
    }
}

/// What a word is to the grammar. It is found once, when the word is.
#[tactic(auto, unfolding(crate::specs::Class::class_of))]
pub fn class_of(token: &Token<'_>) -> Class
    ensures { result ≡ spec.class_of (word_of token.now) }
{
    token.class
}
