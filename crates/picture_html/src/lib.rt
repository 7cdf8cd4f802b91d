//! Pictures of plan files as pages of HTML without script: an outline that folds, with a row for each line from the
//! top down; beside it the time line, where each row has bars over the runs of positions of the actions below its line;
//! the verdict, which leads to the line that it names; why the plan has it; the tree of `picture_svg`; and the run, with
//! what each action makes true and false. Why, and the run, are handed in.
//!
//! A row that is below 40 lines or more doesn't fold: what is below it stands flat, at the indent of the 40th line and
//! with how many lines more it is below. A task that is below more than 40 lines has no bars, and past 2,000 actions one
//! that is below more than 4, so that a page is not many times as long as its plan. The tree is drawn for plans of at
//! most 400 lines.
//!
//! What a plan file does not say is handed in too, or left out: the values of a method's parameters that its task does not
//! show, and where its precondition is tested. A row shows them where one points at it.
#![tactic(auto)]

mod bars;
mod changes;
mod escape;
mod folds;
mod label;
mod laws;
mod page;
mod remarks;
mod row;
mod ruler;
mod style;
mod time;
mod tip;
mod why;

pub use bars::{Bar, FEW_LEVELS, MAX_BARRED, MAX_LEVELS};
pub use laws::{html_is_tame, outlines_are_folded, pages_are_one, small_page, words_are_text};
pub use page::{MAX_DRAWN, MAX_RUN, html};
pub use remarks::Remarks;
