//! Words of texts at places.

ghost use Rattle.hddl_warnings.specs.Told.{IsAbout};

use diagnostics::{Source, Spot, Where};

/// Whether a byte belongs to a word.
fn is_word_byte(byte: u8) -> bool {
    byte > b' ' && byte <= b'~' && byte != b'(' && byte != b')' && byte != b';'
}

/// The word that begins at a place, empty where there is none.
pub(crate) fn word_at<'a>(source: &'a Source<'a>, place: usize) -> &'a [u8] {
    let Some(rest) = source.lines.text().get(place..) else {
        return &[];
    };
    match rest.iter().position(|byte| !is_word_byte(*byte)) {
        Some(len) => rest.get(..len).unwrap_or(rest),
        None => rest,
    }
}

/// The atom whose name begins at a place, from its bracket to its bracket, where it stands on one line without a
/// comment; else its name.
pub(crate) fn atom_at<'a>(source: &'a Source<'a>, place: usize) -> &'a [u8] {
    let name = word_at(source, place);
    let text = source.lines.text();
    let Some(start) = place.checked_sub(1) else {
        return name;
    };
    let Some(rest) = text.get(start..) else {
        return name;
    };
    let Some(close) = rest.iter().position(|byte| *byte == b')') else {
        return name;
    };
    let Some(atom) = rest.get(..close.saturating_add(1)) else {
        return name;
    };
    if atom.first() == Some(&b'(') && atom.iter().all(|byte| is_shown(*byte)) {
        atom
    } else {
        name
    }
}

/// Whether a byte of an atom can be shown as it is.
fn is_shown(byte: u8) -> bool {
    byte >= b' ' && byte <= b'~' && byte != b';'
}

/// The spot of a place, unless it is past the end of the text.
pub(crate) fn spot_at<'a>(source: &'a Source<'a>, place: usize) -> Option<Spot<'a>> {
    if place > source.lines.text().len() {
        return None;
    }
    Some(Spot {
        source,
        place,
        word_len: word_at(source, place).len(),
    })
}

/// A place, or the end of the text where that is shorter.
pub(crate) fn where_at<'a>(source: &'a Source<'a>, place: usize) -> Where<'a>
    ensures { IsAbout source.now place result }
{
    let len = source.lines.text().len();
    Where::Place(Spot {
        source,
        place: place.min(len),
        word_len: word_at(source, place).len(),
    })
}
