//! Places of a text as lines and columns.

use diagnostics::{Lines, Position};
use std::alloc::AllocError;
use std::process::Abort;

/// Whether a place has this line and column, and they lead back to it.
fn stands_at(lines: &Lines<'_>, place: usize, line: usize, column: usize) -> bool {
    let position = Position { line, column };
    place <= lines.text().len()
        && lines.position(place) == position
        && lines.place_of(position) == Some(place)
}

fn is_nowhere(lines: &Lines<'_>, line: usize, column: usize) -> bool {
    lines.place_of(Position { line, column }).is_none()
}

fn expect_positions<R: Abort>(rt: &R, lines: &Lines<'_>) {
    assert!(rt; stands_at(lines, 0, 1, 1));
    assert!(rt; stands_at(lines, 3, 1, 4));
    assert!(rt; stands_at(lines, 4, 2, 1));
    assert!(rt; stands_at(lines, 5, 3, 1));
    assert!(rt; stands_at(lines, 6, 3, 2));
    assert!(rt; stands_at(lines, 7, 3, 3));
    assert!(rt; is_nowhere(lines, 0, 1));
    assert!(rt; is_nowhere(lines, 1, 0));
    assert!(rt; is_nowhere(lines, 1, 5));
    assert!(rt; is_nowhere(lines, 2, 2));
    assert!(rt; is_nowhere(lines, 3, 4));
    assert!(rt; is_nowhere(lines, 4, 1));
}

#[test]
fn positions_and_back(rt: HostRuntime) -> Result<(), AllocError> {
    let lines = Lines::new(rt.alloc(), b"ab\r\n\ncd")?;
    expect_positions(&rt, &lines);
    Ok(())
}
