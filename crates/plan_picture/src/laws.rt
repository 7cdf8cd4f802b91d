//! Laws of pictures.

ghost use Rattle.std.specs.Prelude.{◌≡◌, ◌∷◌, [], Some};
ghost use Rattle.plan_picture.specs.Below.{IsFirstAction};
ghost use Rattle.plan_picture.specs.Example.{listed_children, drawn_children, rows};
ghost use Rattle.plan_picture.specs.Order.{refilled};
ghost use Rattle.plan_picture.specs.Rows.{root_rows, rows_within};
ghost use Rattle.plan_picture.specs.Once.{DrawingsHaveAllOnce};
ghost use Rattle.plan_picture.specs.Outline.{OutlinesAreForests};

/// The ids of the rows and how many lines each is below determine the roots and the children of each line, by their
/// ids, as they are drawn. So two files whose pictures have one outline have one forest, up to the order of siblings.
pub fn outlines_are_forests()
    ensures { OutlinesAreForests }
{}

/// Each line of a file has one row in its picture, and there are no other rows.
pub fn lines_have_one_row()
    ensures { DrawingsHaveAllOnce }
{}

/// The definitions on a small forest.
pub fn small_forest()
    ensures first { IsFirstAction 2 listed_children 2 (Some 0) }
    ensures order { refilled (λ line. Some line) (3 ∷ 0 ∷ []) (0 ∷ 3 ∷ []) ≡ 0 ∷ 3 ∷ [] }
    ensures rows { rows_within drawn_children 3 (root_rows (2 ∷ [])) ≡ rows }
{}
