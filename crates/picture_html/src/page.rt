//! The page.

ghost use Rattle.std.specs.Prelude.{◌≡◌, ◌++◌, max, option_map, IfOk, OnOk};
ghost use Rattle.plan_picture.specs.Picture.{IsPictureOf};
ghost use Rattle.picture_html.specs.Outline.{bars_at};
ghost use Rattle.picture_html.specs.Page as spec;

use crate::bars::{Bar, bars_of};
use crate::changes::say_run;
use crate::escape::say_clean;
use crate::folds::say_outline;
use crate::label::{say_between, say_words_between};
use crate::remarks::Remarks;
use crate::ruler::{say_ticks, step_of};
use crate::style::{say_more_style, say_style};
use crate::tip::are_tested;
use crate::why::say_why;
use picture_svg::svg;
use picture_text::{Caption, Detail};
use plan_picture::Picture;
use plan_text::PlanFile;
use std::alloc::{AllocError, Global};

/// The most lines of a plan whose tree is drawn too.
pub const MAX_DRAWN: usize = 400;

/// The most actions of a plan whose run is shown.
pub const MAX_RUN: usize = 2000;

/// The title of the page.
fn say_title(out: &mut Vec<u8>, caption: &Caption<'_>) -> Result<(), AllocError>
    ensures { OnOk result (out.new.items ≡ out.old.items ++ spec.title caption.now) }
{
    say_words_between(out, b"<title>", caption.problem.as_bytes(), b": ")?;
    say_words_between(out, b"", caption.verdict.as_bytes(), b"</title>\n")
}

/// What a page begins with.
fn say_begin(out: &mut Vec<u8>) -> Result<(), AllocError>
    ensures { OnOk result (out.new.items ≡ out.old.items ++ spec.begin) }
{
    out.extend_from_slice(
        b"<!doctype html>\n<html lang=\"en\">\n<head>\n<meta charset=\"utf-8\">\n",
    )?;
    out.extend_from_slice(
        b"<meta name=\"viewport\" content=\"width=device-width,initial-scale=1\">\n",
    )
}

/// All that stands before what is seen.
fn say_head(
    out: &mut Vec<u8>,
    caption: &Caption<'_>,
    details: Option<&[Detail]>,
) -> Result<(), AllocError>
    ensures { OnOk result (out.new.items ≡ out.old.items ++ spec.head caption.now (option_map (λ d. d.now) details.entry)) }
{
    say_begin(out)?;
    say_title(out, caption)?;
    say_style(out)?;
    say_more_style(out, details)?;
    out.extend_from_slice(b"</head>\n<body>\n<main>\n")
}

/// A verdict that names no line.
fn say_unmarked(out: &mut Vec<u8>, words: &str) -> Result<(), AllocError>
    ensures { OnOk result (out.new.items ≡ out.old.items ++ spec.unmarked words.now) }
{
    if words == "valid" {
        return say_words_between(
            out,
            b"<span class=\"verdict\">",
            words.as_bytes(),
            b"</span>\n",
        );
    }
    say_words_between(
        out,
        b"<span class=\"verdict no\">",
        words.as_bytes(),
        b"</span>\n",
    )
}

/// The verdict, which leads to the line that it names.
fn say_verdict(out: &mut Vec<u8>, caption: &Caption<'_>) -> Result<(), AllocError>
    ensures { OnOk result (out.new.items ≡ out.old.items ++ spec.verdict caption.now.mark caption.now.verdict.now) }
{
    match caption.mark {
        Some(_) => say_words_between(
            out,
            b"<a class=\"verdict no\" href=\"#marked\">",
            caption.verdict.as_bytes(),
            b"</a>\n",
        ),
        None => say_unmarked(out, caption.verdict),
    }
}

/// The domain, and how many lines there are.
fn say_counts(out: &mut Vec<u8>, caption: &Caption<'_>, file: &PlanFile) -> Result<(), AllocError>
    ensures { OnOk result (out.new.items ≡ out.old.items ++ spec.counts caption.now file.now) }
{
    say_words_between(
        out,
        b"<p>domain <b>",
        caption.domain.as_bytes(),
        b"</b> &middot; actions <b>",
    )?;
    say_between(out, b"", file.actions().len(), b"</b> &middot; tasks <b>")?;
    say_between(out, b"", file.decompositions().len(), b"</b></p>\n")
}

/// The problem, the verdict and the counts.
fn say_header(out: &mut Vec<u8>, caption: &Caption<'_>, file: &PlanFile) -> Result<(), AllocError>
    ensures { OnOk result (out.new.items ≡ out.old.items ++ spec.header caption.now file.now) }
{
    say_words_between(
        out,
        b"<header>\n<h1>",
        caption.problem.as_bytes(),
        b"</h1>\n",
    )?;
    say_verdict(out, caption)?;
    say_counts(out, caption, file)?;
    out.extend_from_slice(b"</header>\n")
}

/// How many columns the time line has: one for each action, and one at least.
fn column_count(actions: usize) -> usize
    ensures { result ≡ max 1 actions }
{
    if actions == 0 { 1 } else { actions }
}

/// How many columns the time line has, and how far its numbers are from one another.
fn say_columns(out: &mut Vec<u8>, actions: usize) -> Result<(), AllocError>
    ensures { OnOk result (out.new.items ≡ out.old.items ++ spec.columns actions) }
{
    say_between(
        out,
        b"<h2>Decomposition and time</h2>\n<div class=\"chart\" style=\"--n:",
        column_count(actions),
        b";--s:",
    )?;
    say_between(out, b"", step_of(actions), b"\">\n")
}

/// Its numbers.
fn say_ruler(out: &mut Vec<u8>, actions: usize) -> Result<(), AllocError>
    ensures { OnOk result (out.new.items ≡ out.old.items ++ spec.ruler actions) }
{
    out.extend_from_slice(b"<div class=\"row head\"><span class=\"label\">task and method</span>")?;
    out.extend_from_slice(b"<span class=\"time\">")?;
    say_ticks(out, actions)?;
    out.extend_from_slice(b"</span></div>\n")
}

/// What the sign of a test means, if there is one.
fn test_key(is_tested: bool) -> &'static [u8]
    ensures { result.now ≡ spec.test_key is_tested }
{
    if is_tested {
        b"<span><i class=\"p\"></i>where a method's precondition is tested</span>"
    } else {
        b""
    }
}

/// What stands below the chart.
fn say_key(out: &mut Vec<u8>, is_tested: bool) -> Result<(), AllocError>
    ensures { OnOk result (out.new.items ≡ out.old.items ++ spec.key is_tested) }
{
    out.extend_from_slice(b"</div>\n<p class=\"key\"><span><i class=\"a\"></i>action</span>")?;
    out.extend_from_slice(b"<span><i></i>all actions of a task</span>")?;
    out.extend_from_slice(test_key(is_tested))?;
    out.extend_from_slice(b"</p>\n")
}

/// The outline and the time line.
fn say_chart(
    out: &mut Vec<u8>,
    caption: &Caption<'_>,
    details: Option<&[Detail]>,
    picture: &Picture<'_>,
    bars: &[Vec<Bar>],
) -> Result<(), AllocError>
    ensures { OnOk result (out.new.items ≡ out.old.items ++ spec.chart caption.now (option_map (λ d. d.now) details.entry) picture.now (bars_at bars.now)) }
{
    let actions = picture.file.actions().len();
    let rows = picture.rows.as_slice();
    say_columns(out, actions)?;
    say_ruler(out, actions)?;
    say_outline(out, caption, picture.file, details, bars, rows)?;
    say_key(out, are_tested(details))
}

/// The tree, where it is drawn.
fn say_tree(out: &mut Vec<u8>, tree: &[u8]) -> Result<(), AllocError>
    ensures { OnOk result (out.new.items ≡ out.old.items ++ spec.tree tree.now) }
{
    if tree.is_empty() {
        return Ok(());
    }
    out.extend_from_slice(b"<h2>Tree</h2>\n<div class=\"tree\">\n")?;
    out.extend_from_slice(tree)?;
    out.extend_from_slice(b"</div>\n")
}

/// The tree of a picture; empty where it has too many lines.
fn tree_of(
    alloc: Global,
    caption: &Caption<'_>,
    details: Option<&[Detail]>,
    picture: &Picture<'_>,
) -> Result<Vec<u8>, AllocError>
    requires { IsPictureOf picture.now.file.now picture.now }
    ensures { IfOk result (λ tree. spec.IsTreeOf caption.now (option_map (λ d. d.now) details.entry) picture.now tree.items) }
{
    let lines = picture.rows.as_slice().len();
    if lines > MAX_DRAWN {
        return Ok(Vec::new(alloc));
    }
    let tree = svg(alloc, caption, details, picture)?;
    Ok(tree)
}

/// What stands above the chart: the header, and why the plan has its verdict.
fn say_above(
    out: &mut Vec<u8>,
    caption: &Caption<'_>,
    remarks: &Remarks<'_>,
    file: &PlanFile,
) -> Result<(), AllocError>
    ensures { OnOk result (out.new.items ≡ out.old.items ++ spec.above caption.now remarks.now file.now) }
{
    say_header(out, caption, file)?;
    say_why(out, caption.verdict, remarks.why)?;
    Ok(())
}

/// What stands below it: the tree, the run, and the end of the page.
fn say_below(
    out: &mut Vec<u8>,
    remarks: &Remarks<'_>,
    file: &PlanFile,
    tree: &[u8],
) -> Result<(), AllocError>
    ensures { OnOk result (out.new.items ≡ out.old.items ++ spec.below remarks.now file.now tree.now) }
{
    say_tree(out, tree)?;
    say_run(out, file, remarks.run)?;
    out.extend_from_slice(b"</main>\n</body>\n</html>\n")?;
    Ok(())
}

/// The page with these bars and this tree.
fn say_page(
    out: &mut Vec<u8>,
    caption: &Caption<'_>,
    remarks: &Remarks<'_>,
    picture: &Picture<'_>,
    bars: &[Vec<Bar>],
    tree: &[u8],
) -> Result<(), AllocError>
    ensures { OnOk result (out.new.items ≡ out.old.items ++ spec.html_bytes caption.now remarks.now picture.now (bars_at bars.now) tree.now) }
{
    say_head(out, caption, remarks.details)?;
    say_above(out, caption, remarks, picture.file)?;
    say_chart(out, caption, remarks.details, picture, bars)?;
    say_below(out, remarks, picture.file, tree)?;
    Ok(())
}

/// The same as a text.
fn written(
    alloc: Global,
    caption: &Caption<'_>,
    remarks: &Remarks<'_>,
    picture: &Picture<'_>,
    bars: &[Vec<Bar>],
    tree: &[u8],
) -> Result<Vec<u8>, AllocError>
    ensures { IfOk result (λ page. page.items ≡ spec.html_bytes caption.now remarks.now picture.now (bars_at bars.now) tree.now) }
{
    let mut out = Vec::new(alloc);
    say_page(&mut out, caption, remarks, picture, bars, tree)?;
    Ok(out)
}

/// The picture as a page of HTML, which needs nothing from outside and has no script: the verdict and why it is so, a row
/// for each line with its bars beside it, the tree, and the run. With the details of a solution the row of a task has the
/// values of parameters and the method's precondition, and a sign where that is tested. An error is also that a number of
/// the tree doesn't fit, as in `picture_svg::svg`.
pub fn html(
    alloc: Global,
    caption: &Caption<'_>,
    remarks: &Remarks<'_>,
    picture: &Picture<'_>,
) -> Result<Vec<u8>, AllocError>
    requires { IsPictureOf picture.now.file.now picture.now }
    ensures { IfOk result (λ page. spec.IsHtmlOf caption.now remarks.now picture.now page.items) }
{
    let actions = picture.file.actions().len();
    let decompositions = picture.file.decompositions().len();
    let bars = bars_of(alloc, actions, decompositions, picture.rows.as_slice())?;
    let tree = tree_of(alloc, caption, remarks.details, picture)?;
    let page = written(
        alloc,
        caption,
        remarks,
        picture,
        bars.as_slice(),
        tree.as_slice(),
    )?;
    Ok(page)
}
