//! Laws of written pictures.

ghost use Rattle.std.specs.Prelude.{◌≡◌, ℕ, false, List, ◌++◌, Option};
ghost use Rattle.diagnostics.specs.Json.{IsOneLine};
ghost use Rattle.diagnostics.specs.Tame.{is_tame};
ghost use Rattle.picture_text.specs.declared.caption.Caption.{Caption};
ghost use Rattle.picture_text.specs.declared.detail.Detail.{Detail};
ghost use Rattle.plan_picture.specs.declared.picture.Picture.{Picture};
ghost use Rattle.picture_text.specs.declared.as_text.Glyphs.{Glyphs};
ghost use Rattle.picture_text.specs.Dot.{dot_bytes, label_rest, quoted_rest};
ghost use Rattle.picture_text.specs.Json.{json_bytes};
ghost use Rattle.picture_text.specs.Lines.{Line};
ghost use Rattle.picture_text.specs.OneForest.{GraphShowsForests, JsonShowsForests, TextShowsForests};
ghost use Rattle.picture_text.specs.Tame.{AreTame, is_tame_in, past_quote};
ghost use Rattle.picture_text.specs.Text.{text_bytes};

/// A picture as text has no control byte but tabs and line feeds, and but for bytes of the tree's signs it is ASCII,
/// whatever the names are.
pub fn text_is_tame()
    ensures { (glyphs : Glyphs) (caption : Caption) (details : Option (List Detail)) (picture : Picture) → AreTame (is_tame_in glyphs) (text_bytes glyphs caption details picture) }
{}

/// A picture in the language of graphviz has no control byte but tabs and line feeds, and is ASCII, whatever the names
/// are.
pub fn graph_is_tame()
    ensures { (caption : Caption) (picture : Picture) → AreTame is_tame (dot_bytes caption picture) }
{}

/// In the language of graphviz a label ends at its own last quote, whatever its words are: it is the first quote that
/// stands after no backslash. The problem's words end there likewise.
pub fn labels_end_at_quotes()
    ensures labels { (number : ℕ) (line : Line) (rest : List ℕ) → past_quote false (label_rest number line ++ rest) ≡ rest }
    ensures words { (words rest : List ℕ) → past_quote false (quoted_rest words ++ rest) ≡ rest }
{}

/// A picture as JSON has no byte below 32 but the line feed at its end, whatever the names are.
pub fn json_is_one_line()
    ensures { (caption : Caption) (lines : List ℕ) (details : Option (List Detail)) (picture : Picture) → IsOneLine (json_bytes caption lines details picture) }
{}

/// Two pictures with one value as JSON, which its text reads back as, have the same roots, the same lines in their rows
/// and the same children of each, all by their ids. So two files with one picture as JSON have one forest, up to the
/// order of siblings, whatever details are shown.
pub fn json_shows_forests()
    ensures { JsonShowsForests }
{}

/// Two pictures with one text, in which no details are shown, have the same roots, the same lines in their rows and the
/// same children of each, all by their ids. So two files with one picture as text have one forest, up to the order of
/// siblings, whatever the verdicts on them are. A line's depth is read off the signs before its words, and its id behind
/// them or in the margin, whose width is read off the title: so the names of the problems must begin with no blank.
pub fn text_shows_forests()
    ensures { TextShowsForests }
{
    plan_picture::outlines_are_forests();
}

/// Two pictures with the same bytes in the language of graphviz are of one forest in the same way: its nodes and edges
/// are those of the picture.
pub fn graph_shows_forests()
    ensures { GraphShowsForests }
{}
