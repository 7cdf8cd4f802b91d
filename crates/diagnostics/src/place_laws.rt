//! Laws of places and of shown lines.

ghost use Rattle.std.specs.Prelude.{◌≡◌, ℕ, ◌≤◌, ◌<◌, List, length};
ghost use Rattle.diagnostics.specs.Places.{position};
ghost use Rattle.diagnostics.specs.Shown.{excerpt, StandsBelow};

/// Two places of a text have two positions. So the place at a place's position is that place.
pub fn positions_differ()
    ensures { (text : List ℕ) (place other : ℕ) → place ≤ length text → other ≤ length text → position text place ≡ position text other → place ≡ other }
{}

/// The carets' row has a tab below each tab of the excerpt's row and a blank below each other byte, up to the place;
/// and the excerpt's row goes on with the bytes from the place on.
pub fn carets_stand_below()
    ensures { (text : List ℕ) (place : ℕ) → place ≤ length text → StandsBelow text place (excerpt text place) }
{}
