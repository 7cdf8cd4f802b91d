//! The words that may stand at a place of a text.

ghost use Rattle.std.specs.Prelude.{◌≡◌, ◌+◌, true, IfOk, MatchOption};
ghost use Rattle.diagnostics.specs.Near.{names_of};
ghost use Rattle.hddl_words.specs.declared.fault.TextFault.TheVariants as fault_of;
ghost use Rattle.hddl_text.specs.Grammar.{DerivesDomain, DerivesProblem};
ghost use Rattle.hddl_text.specs.Spelling.{FaultAt};
ghost use Rattle.text_messages.specs.Following.{continued, keywords, FaultIn, HasFollowing, IsRefusedAt, IsSpelled, MayFollow};

use diagnostics::Role;
use hddl_text::{TextFault, read_domain, read_problem};
use std::alloc::{AllocError, Global};

/// A word of each class but keywords, and a keyword that stands for any other.
const WORDS: [&[u8]; 14] = [
    b"(", b")", b"and", b"not", b"forall", b"define", b"domain", b"problem", b"?x", b"a-name",
    b"-", b"=", b"<", b":any",
];

/// The keywords of the grammar; those that have a second form by the first.
fn all_keywords() -> [&'static [u8]; 19]
    ensures { names_of result ≡ keywords }
{
    [
        b":requirements",
        b":types",
        b":constants",
        b":predicates",
        b":task",
        b":method",
        b":action",
        b":domain",
        b":objects",
        b":init",
        b":goal",
        b":htn",
        b":parameters",
        b":precondition",
        b":effect",
        b":subtasks",
        b":ordered-subtasks",
        b":ordering",
        b":constraints",
    ]
}

/// Where more bytes than this stand before a place, what may stand there isn't looked for: reading them for each
/// candidate would take longer than reading the longest text.
const MOST_BEFORE: usize = 500_000;

/// As many brackets may be open at once.
const MOST_OPEN: usize = 64;

/// The fault of a text as a domain, if it is none.
fn domain_fault(alloc: Global, text: &[u8]) -> Option<TextFault>
    ensures { MatchOption result (IsSpelled Role.Domain text.now) (FaultAt DerivesDomain text.now) }
{
    match read_domain(alloc, text) {
        Ok(_) => None,
        Err(fault) => Some(fault),
    }
}

/// The fault of a text as a problem, if it is none.
fn problem_fault(alloc: Global, text: &[u8]) -> Option<TextFault>
    ensures { MatchOption result (IsSpelled Role.Problem text.now) (FaultAt DerivesProblem text.now) }
{
    match read_problem(alloc, text) {
        Ok(_) => None,
        Err(fault) => Some(fault),
    }
}

/// The fault of a text as a domain or as a problem, if it is none.
fn fault_as(alloc: Global, role: Role, text: &[u8]) -> Option<TextFault>
    ensures { MatchOption result (IsSpelled role text.now) (FaultIn role text.now) }
{
    match role {
        Role::Problem => problem_fault(alloc, text),
        Role::Domain => domain_fault(alloc, text),
        Role::Plan => domain_fault(alloc, text),
    }
}

/// Whether the grammar refuses a text at a place.
fn is_refused_at(alloc: Global, role: Role, text: &[u8], place: usize) -> Result<bool, AllocError>
    ensures { IfOk result (λ is. is ≡ true → IsRefusedAt role text.now place) }
{
    let Some(fault) = fault_as(alloc, role, text) else {
        return Ok(false);
    };
    match fault {
        TextFault::OutOfMemory => Err(AllocError),
        TextFault::Expected(at) => Ok(at == place),
        TextFault::Unsupported(at) => Ok(at == place),
        _ => Ok(false),
    }
}

/// Whether a text is a domain or a problem.
fn is_spelled(alloc: Global, role: Role, text: &[u8]) -> Result<bool, AllocError>
    ensures { IfOk result (λ is. is ≡ true → IsSpelled role text.now) }
{
    let Some(fault) = fault_as(alloc, role, text) else {
        return Ok(true);
    };
    match fault {
        TextFault::OutOfMemory => Err(AllocError),
        _ => Ok(false),
    }
}

/// Some bytes with a word in a line of its own, and what comes after that.
fn continuation(
    alloc: Global,
    before: &[u8],
    word: &[u8],
    rest: &[u8],
) -> Result<Vec<u8>, AllocError>
    ensures { IfOk result (λ text. text.items ≡ continued before.now word.now rest.now) }
{
    let mut text = Vec::from_slice(alloc, before)?;
    text.push(b'\n')?;
    text.extend_from_slice(word)?;
    text.push(b' ')?;
    text.extend_from_slice(rest)?;
    Ok(text)
}

/// As many closing brackets.
fn closing(alloc: Global, count: usize) -> Result<Vec<u8>, AllocError> {
    Ok(vec![in alloc; b')'; count]?)
}

/// How many closing brackets end a text where some are open before a word.
fn closing_after(open: usize, word: &[u8]) -> usize {
    match word {
        b"(" => open.saturating_add(1),
        b")" => open.saturating_sub(1),
        _ => open,
    }
}

/// Whether the grammar refuses a word after some bytes, of which this many brackets are open.
fn is_refused(
    alloc: Global,
    role: Role,
    before: &[u8],
    open: usize,
    word: &[u8],
) -> Result<bool, AllocError>
    ensures { IfOk result (λ is. is ≡ true → MayFollow role before.now word.now → ⊥) }
{
    let rest = closing(alloc, closing_after(open, word))?;
    let text = continuation(alloc, before, word, rest.as_slice())?;
    let is = is_refused_at(alloc, role, text.as_slice(), before.len() + 1)?;
    Ok(is)
}

/// The candidates that the grammar doesn't refuse after some bytes, in their order.
fn following(
    alloc: Global,
    role: Role,
    before: &[u8],
    open: usize,
    candidates: &[&'static [u8]],
) -> Result<Vec<&'static [u8]>, AllocError>
    ensures { IfOk result (λ found. HasFollowing role before.now (names_of candidates.now) (names_of found.items)) }
{
    let mut found: Vec<&'static [u8]> = Vec::new(alloc);
    for candidate in candidates {
        let is = is_refused(alloc, role, before, open, *candidate)?;
        if !is {
            found.push(*candidate)?;
        }
    }
    Ok(found)
}

/// The keywords that the grammar doesn't refuse after some bytes.
pub(crate) fn following_keywords(
    alloc: Global,
    role: Role,
    before: &[u8],
    open: usize,
) -> Result<Vec<&'static [u8]>, AllocError>
    ensures { IfOk result (λ found. HasFollowing role before.now keywords (names_of found.items)) }
{
    let candidates = all_keywords();
    let found = following(alloc, role, before, open, &candidates)?;
    Ok(found)
}

/// Whether a bracket, if the word is one, may be opened or closed where this many are open.
fn has_room(open: usize, word: &[u8]) -> bool {
    match word {
        b"(" => open < MOST_OPEN,
        b")" => open > 0,
        _ => true,
    }
}

/// The words that may stand at a place: other words than keywords, and keywords.
pub(crate) struct Candidates {
    pub(crate) words: Vec<&'static [u8]>,
    pub(crate) keywords: Vec<&'static [u8]>,
}

impl Drop for Candidates {
    fn drop(self) {
        let Candidates {
            words: _,
            keywords: _,
        } = self;
    }
}

impl Candidates {
    /// Whether nothing may stand there.
    pub(crate) fn is_empty(&self) -> bool {
        self.words.is_empty() && self.keywords.is_empty()
    }
}

/// Whether so many bytes stand before a place that what may stand there isn't looked for.
pub(crate) fn is_far(before: &[u8]) -> bool {
    before.len() > MOST_BEFORE
}

/// The words that may stand after some bytes of a text, in their order; none where there are too many bytes.
pub(crate) fn expected(
    alloc: Global,
    role: Role,
    before: &[u8],
    open: usize,
) -> Result<Candidates, AllocError> {
    if is_far(before) {
        return Ok(Candidates {
            words: Vec::new(alloc),
            keywords: Vec::new(alloc),
        });
    }
    let mut words = following(alloc, role, before, open, &WORDS)?;
    words.retain(|word| has_room(open, *word));
    let keywords = following_keywords(alloc, role, before, open)?;
    Ok(Candidates { words, keywords })
}

/// What may come after a keyword, up to the end of what it begins.
fn arguments_of(keyword: &[u8]) -> [&'static [u8]; 3] {
    match keyword {
        b":domain" => [b"d", b"", b""],
        b":task" => [b"(t)", b"t", b""],
        b":method" => [b"m :task (t)", b"", b""],
        b":action" => [b"a", b"", b""],
        _ => [b"()", b"", b"() :task (t)"],
    }
}

/// What a problem may lack before its last bracket.
const MISSING: [&[u8]; 4] = [b"", b"(:domain d)", b"(:htn)", b"(:domain d) (:htn)"];

/// Whether some text of a role begins with these bytes and a keyword: a few are tried.
pub(crate) fn may_follow(
    alloc: Global,
    role: Role,
    before: &[u8],
    open: usize,
    keyword: &[u8],
) -> Result<bool, AllocError>
    ensures { IfOk result (λ may. may ≡ true → MayFollow role before.now keyword.now) }
{
    for argument in arguments_of(keyword) {
        for missing in MISSING {
            if !missing.is_empty() && role != Role::Problem {
                continue;
            }
            let may = is_completed(alloc, role, before, open, keyword, argument, missing)?;
            if may {
                return Ok(true);
            }
        }
    }
    Ok(false)
}

/// Whether an argument of a keyword, and sections before the last bracket, complete a text.
fn is_completed(
    alloc: Global,
    role: Role,
    before: &[u8],
    open: usize,
    keyword: &[u8],
    argument: &[u8],
    missing: &[u8],
) -> Result<bool, AllocError>
    ensures { IfOk result (λ is. is ≡ true → MayFollow role before.now keyword.now) }
{
    let mut rest = Vec::from_slice(alloc, argument)?;
    let mut inner = closing(alloc, open.saturating_sub(1))?;
    rest.append(&mut inner)?;
    rest.extend_from_slice(missing)?;
    rest.push(b')')?;
    let text = continuation(alloc, before, keyword, rest.as_slice())?;
    let is = is_spelled(alloc, role, text.as_slice())?;
    Ok(is)
}
