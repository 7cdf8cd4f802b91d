//! Laws of pages.

ghost use Rattle.std.specs.Prelude.{◌≡◌, ℕ, List, codes};
ghost use Rattle.htn_model.specs.PlanFile.{IsIn};
ghost use Rattle.diagnostics.specs.Tame.{is_tame};
ghost use Rattle.plan_picture.specs.Example as forest;
ghost use Rattle.plan_picture.specs.declared.picture.Picture.{Picture};
ghost use Rattle.picture_text.specs.declared.caption.Caption.{Caption};
ghost use Rattle.picture_text.specs.Tame.{AreTame};
ghost use Rattle.picture_svg.specs.Escape.{IsText};
ghost use Rattle.picture_html.specs.Bars.{AreRuns};
ghost use Rattle.picture_html.specs.Example as example;
ghost use Rattle.picture_html.specs.Folds.{OutlinesAreFolded};
ghost use Rattle.picture_html.specs.Label.{clean, words};
ghost use Rattle.picture_html.specs.OnePage.{PagesAreOne};
ghost use Rattle.picture_html.specs.Outline.{outline};
ghost use Rattle.picture_html.specs.Page.{IsHtmlOf};
ghost use Rattle.picture_html.specs.Why.{clean_lines};
ghost use Rattle.picture_html.specs.declared.remarks.Remarks.{Remarks};

/// What folds under a row is what is below its line, whatever is written of a row.
pub fn outlines_are_folded()
    ensures { OutlinesAreFolded }
{}

/// A picture has one page: its definition leaves no byte open.
pub fn pages_are_one()
    ensures { PagesAreOne }
{
    picture_svg::layouts_are_one();
}

/// No text is markup: words and lines have no `<`, `>` and `"` where they are written, and no `&` but that of one of four
/// names.
pub fn words_are_text()
    ensures words { (words : List ℕ) → IsText (clean words) }
    ensures lines { (lines : List ℕ) → IsText (clean_lines lines) }
{
    picture_svg::words_are_text();
}

/// A page has no control byte but tabs and line feeds, and is ASCII, whatever the names are.
pub fn html_is_tame()
    ensures { (caption : Caption) (remarks : Remarks) (picture : Picture) (bytes : List ℕ) → IsHtmlOf caption remarks picture bytes → AreTame is_tame bytes }
{
    picture_svg::svg_is_tame();
}

/// The definitions on small values.
pub fn small_page()
    ensures bars { AreRuns (λ n. IsIn n example.numbers) example.bars }
    ensures words { clean (codes "<a b=\"&\">") ≡ codes "&lt;a b=&quot;&amp;&quot;&gt;" }
    ensures outline { outline example.sign forest.rows ≡ codes "+2-0+3-1</details>\n</details>\n" }
    ensures line { words example.tea ≡ codes "<b>make</b> tea <em>m-tea</em>" }
{}
