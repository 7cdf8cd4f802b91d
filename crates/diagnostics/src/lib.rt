//! Diagnostics of texts as data, at lines and columns and with questions for near names, and how they are written.
#![tactic(auto)]

mod as_json;
mod diagnostic;
mod distance;
mod excerpt;
mod format;
mod groups;
mod ink;
mod laws;
mod lines;
mod near_laws;
mod offers;
mod place_laws;
mod position;
mod questions;
mod reached;
mod report;
mod text;
mod text_lines;
mod verdict;

pub use as_json::json_report;
pub use diagnostic::{
    Diagnostic, Note, Part, Remark, RemarkKind, Role, Severity, Source, Spot, Where,
};
pub use excerpt::{Excerpt, shown};
pub use format::Format;
pub use ink::Style;
pub use laws::{
    colour_is_dress, json_is_one_line, json_of_no_diagnostics, output_is_tame, verdict_is_one_line,
};
pub use near_laws::slips_are_seen;
pub use offers::nearest;
pub use place_laws::{carets_stand_below, positions_differ};
pub use position::Position;
pub use questions::{did_you_mean, is_question, push_names};
pub use reached::Reached;
pub use report::{short_report, text_report};
pub use text_lines::Lines;
pub use verdict::{json_verdict, short_verdict, text_verdict};
