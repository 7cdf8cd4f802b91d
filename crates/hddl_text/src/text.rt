//! Reads the texts of domains and problems.

ghost use Rattle.std.specs.Prelude.{◌≡◌, ◌≢◌, ℕ, List, map, IfOk, IfErr};
ghost use Rattle.hddl_words.specs.Class.{class_of as class};
ghost use Rattle.hddl_words.specs.Words.{word_of};
ghost use Rattle.hddl_words.specs.declared.domain.DomainText.{DomainText as Domain};
ghost use Rattle.hddl_words.specs.declared.problem.ProblemText.{ProblemText as Problem};
ghost use Rattle.hddl_text.specs.Grammar.{DerivesDomain, DerivesProblem};
ghost use Rattle.hddl_text.specs.Spelling as spec;
ghost use Rattle.hddl_text.specs.Spelling.{Spells, FaultAt, AreNested, HasNoNested, EarlyFaultAt};

use crate::domain::whole_domain;
use crate::problem::whole_problem;
use hddl_words::{
    Class, Cursor, DomainText, ProblemText, Stop, TextFault, Token, check_brackets, class_of, lex,
};
use std::alloc::Global;

/// The tree of a domain's text.
///
/// A text that the grammar of HDDL (Höller et al., AAAI 2020) spells gives its one tree. Any other is refused with the
/// place of its first fault: first of its length, then of its words, then of its brackets, then of the grammar.
/// `OutOfMemory` comes only where memory was refused.
pub fn read_domain(alloc: Global, text: &[u8]) -> Result<DomainText, TextFault>
    // What is read is spelled.
    ensures found { IfOk result (Spells DerivesDomain text.now) }
    // Nothing else is.
    ensures only { IfOk result (λ tree. (other : Domain) → Spells DerivesDomain text.now other → other ≡ tree) }
    // What is spelled is read, unless memory runs out.
    ensures refused { IfErr result (λ fault. fault ≢ TextFault.OutOfMemory → (tree : Domain) → Spells DerivesDomain text.now tree → ⊥) }
    // Each fault stands at its place.
    ensures fault { IfErr result (FaultAt DerivesDomain text.now) }
{
    let tokens = nested_words(alloc, text)?;
    let mut cursor = Cursor::new(tokens.as_slice());
    match whole_domain(alloc, &mut cursor) {
        Ok(tree) => Ok(tree),
        Err(stop) => Err(fault_of(stop, tokens.as_slice(), text.len())),
    }
}

/// The tree of a problem's text, by the same rules as `read_domain`.
pub fn read_problem(alloc: Global, text: &[u8]) -> Result<ProblemText, TextFault>
    // What is read is spelled.
    ensures found { IfOk result (Spells DerivesProblem text.now) }
    // Nothing else is.
    ensures only { IfOk result (λ tree. (other : Problem) → Spells DerivesProblem text.now other → other ≡ tree) }
    // What is spelled is read, unless memory runs out.
    ensures refused { IfErr result (λ fault. fault ≢ TextFault.OutOfMemory → (tree : Problem) → Spells DerivesProblem text.now tree → ⊥) }
    // Each fault stands at its place.
    ensures fault { IfErr result (FaultAt DerivesProblem text.now) }
{
    let tokens = nested_words(alloc, text)?;
    let mut cursor = Cursor::new(tokens.as_slice());
    match whole_problem(alloc, &mut cursor) {
        Ok(tree) => Ok(tree),
        Err(stop) => Err(fault_of(stop, tokens.as_slice(), text.len())),
    }
}

/// A text spells one domain at most, and one problem at most. A law, with an empty body.
pub fn texts_spell_one_tree()
    ensures domain { (text : List ℕ) (tree other : Domain) → Spells DerivesDomain text tree → Spells DerivesDomain text other → tree ≡ other }
    ensures problem { (text : List ℕ) (tree other : Problem) → Spells DerivesProblem text tree → Spells DerivesProblem text other → tree ≡ other }
{}

/// The words of a text whose brackets nest.
fn nested_words<'a>(alloc: Global, text: &'a [u8]) -> Result<Vec<Token<'a>>, TextFault>
    ensures nested { IfOk result (AreNested text.now) }
    ensures refused { IfErr result (HasNoNested text.now) }
    ensures fault { IfErr result (EarlyFaultAt text.now) }
{
    let tokens = lex(alloc, text)?;
    check_brackets(alloc, tokens.as_slice())?;
    Ok(tokens)
}

/// The fault of a text of this length, where reading its words stopped.
fn fault_of(stop: Stop, words: &[Token<'_>], len: usize) -> TextFault
    ensures { result ≡ spec.fault_of len (map word_of words.now) stop }
{
    match stop {
        Stop::Memory => TextFault::OutOfMemory,
        Stop::Refused(unsupported, left) => {
            let from = words.len() - left.min(words.len());
            match &words[from..] {
                [] => TextFault::Expected(len),
                [word, ..] => refusal_of(word, unsupported),
            }
        }
    }
}

fn refusal_of(word: &Token<'_>, unsupported: bool) -> TextFault
    ensures { result ≡ spec.refusal_of unsupported (word_of word.now) }
{
    if unsupported && is_unsupportable(word) {
        TextFault::Unsupported(word.place)
    } else {
        TextFault::Expected(word.place)
    }
}

/// Whether a word may mean what is left out by name.
fn is_unsupportable(word: &Token<'_>) -> bool
    ensures { result ≡ spec.is_unsupportable (class (word_of word.now)) }
{
    matches!(
        class_of(word),
        Class::Keyword(_)
            | Class::Equal
            | Class::Open
            | Class::And
            | Class::Not
            | Class::Forall
            | Class::Reserved
    )
}
