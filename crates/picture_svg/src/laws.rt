//! Laws of SVG pictures.

ghost use Rattle.std.specs.Prelude.{ℕ, List, Option};
ghost use Rattle.diagnostics.specs.Tame.{is_tame};
ghost use Rattle.plan_picture.specs.declared.picture.Picture.{Picture};
ghost use Rattle.picture_text.specs.declared.caption.Caption.{Caption};
ghost use Rattle.picture_text.specs.declared.detail.Detail.{Detail};
ghost use Rattle.picture_text.specs.Tame.{AreTame};
ghost use Rattle.picture_svg.specs.declared.layout.Layout.{Layout};
ghost use Rattle.picture_svg.specs.Apart.{LayoutsAreClear};
ghost use Rattle.picture_svg.specs.Escape.{escaped, IsText};
ghost use Rattle.picture_svg.specs.OneLayout.{LayoutsAreOne};
ghost use Rattle.picture_svg.specs.Svg.{svg_bytes};

/// No two boxes of a picture overlap. No edge crosses a box but those that it joins: it leads from the middle of the
/// right side of its parent's box, or the problem's, to the middle of the left side of its own. All boxes lie within the
/// width and the height of the whole.
pub fn layouts_are_clear()
    ensures { LayoutsAreClear }
{}

/// A picture has one layout: two have the same boxes, the same edges and the same bytes.
pub fn layouts_are_one()
    ensures { LayoutsAreOne }
{}

/// No text is markup: words have no `<`, `>` and `"` where they are written, and no `&` but that of one of four names.
pub fn words_are_text()
    ensures { (words : List ℕ) → IsText (escaped words) }
{}

/// A picture as SVG has no control byte but tabs and line feeds, and is ASCII, whatever the names are.
pub fn svg_is_tame()
    ensures { (caption : Caption) (details : Option (List Detail)) (picture : Picture) (layout : Layout) → AreTame is_tame (svg_bytes caption details picture layout) }
{}
