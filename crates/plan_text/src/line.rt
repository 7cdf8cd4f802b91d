//! The kinds of line between the markers.

ghost use Rattle.std.specs.Prelude.{◌≡◌, position};
ghost use Rattle.std.specs.Option.{option_map};
ghost use Rattle.std.specs.List.{list_all};
ghost use Rattle.plan_text.specs.Line as spec;
ghost use Rattle.plan_text.specs.Reading.{kind, decomposition_kind, named_kind};
ghost use Rattle.plan_text.specs.Seen.{seen, seen_all, seen_kind};

use crate::piece::Piece;

/// What a line says, as the words that say it.
#[derive(Debug, Drop)]
pub(crate) enum LineKind<'w, 'a> {
    Blank,
    Roots(&'w [Piece<'a>]),
    Action {
        id: Piece<'a>,
        name: Piece<'a>,
        arguments: &'w [Piece<'a>],
    },
    Decomposition {
        id: Piece<'a>,
        task: Piece<'a>,
        arguments: &'w [Piece<'a>],
        method: Piece<'a>,
        children: &'w [Piece<'a>],
    },
}

fn is_number(word: &Piece<'_>) -> bool
    ensures { result ≡ spec.is_number (seen word.now) }
{
    word.bytes.iter().all(|byte| byte.is_ascii_digit())
}

fn is_arrow(word: &Piece<'_>) -> bool
    ensures { result ≡ spec.is_arrow (seen word.now) }
{
    word.bytes == b"->".as_slice()
}

fn is_root(word: &Piece<'_>) -> bool
    ensures { result ≡ spec.is_root (seen word.now) }
{
    word.bytes.eq_ignore_ascii_case(b"root")
}

/// Where the first arrow stands.
fn arrow_in(words: &[Piece<'_>]) -> Option<usize>
    ensures { result ≡ position spec.is_arrow (seen_all words.now) }
{
    for (i, word) in words.iter().enumerate() {
        if is_arrow(word) {
            return Some(i);
        }
    }
    None
}

fn all_numbers(words: &[Piece<'_>]) -> bool
    ensures { result ≡ list_all spec.is_number (seen_all words.now) }
{
    for word in words {
        if !is_number(word) {
            return false;
        }
    }
    true
}

/// What the words of a line say, or None where the line is of no kind.
#[tactic(auto, unfolding(crate::specs::Reading::kind))]
pub(crate) fn kind_of<'w, 'a>(words: &'w [Piece<'a>]) -> Option<LineKind<'w, 'a>>
    ensures { option_map seen_kind result ≡ kind (seen_all words.now) }
{
    match words {
        [] => Some(LineKind::Blank),
        [first, rest @ ..] => {
            if is_root(first) {
                if all_numbers(rest) {
                    Some(LineKind::Roots(rest))
                } else {
                    None
                }
            } else if is_number(first) {
                named_kind(*first, rest)
            } else {
                None
            }
        }
    }
}

/// The kind of a line that begins with an id, by the words after it; none where it is of no kind.
fn named_kind<'w, 'a>(id: Piece<'a>, words: &'w [Piece<'a>]) -> Option<LineKind<'w, 'a>>
    ensures { option_map seen_kind result ≡ named_kind (seen id.entry) (seen_all words.now) }
{
    let [name, rest @ ..] = words else {
        return None;
    };
    if is_arrow(name) {
        return None;
    }
    match arrow_in(rest) {
        None => Some(LineKind::Action {
            id,
            name: *name,
            arguments: rest,
        }),
        Some(n) => decomposition_kind(id, *name, &rest[..n], &rest[n + 1..]),
    }
}

/// The kind of a line with an arrow, by the words before and after it; none where it is of no kind.
fn decomposition_kind<'w, 'a>(
    id: Piece<'a>,
    task: Piece<'a>,
    arguments: &'w [Piece<'a>],
    words: &'w [Piece<'a>],
) -> Option<LineKind<'w, 'a>>
    ensures { option_map seen_kind result ≡ decomposition_kind (seen id.entry) (seen task.entry) (seen_all arguments.now) (seen_all words.now) }
{
    let [method, children @ ..] = words else {
        return None;
    };
    if is_arrow(method) || !all_numbers(children) {
        return None;
    }
    Some(LineKind::Decomposition {
        id,
        task,
        arguments,
        method: *method,
        children,
    })
}
