//! Pictures of plan files as they are written: as text, for graphviz and as JSON.
#![tactic(auto)]

mod as_dot;
mod as_json;
mod as_text;
mod caption;
mod detail;
mod laws;
mod line;
mod words;

pub use as_dot::{dot, words_of};
pub use as_json::json;
pub use as_text::{Glyphs, say_label, text, width_of};
pub use caption::{Caption, Mark};
pub use detail::{
    Condition, Detail, Setting, condition_of, detail_at, say_condition, say_moment, say_setting,
    settings_of,
};
pub use laws::{
    graph_is_tame, graph_shows_forests, json_is_one_line, json_shows_forests, labels_end_at_quotes,
    text_is_tame, text_shows_forests,
};
pub use line::{Line, line_at};
pub use words::{is_marked, mark_of, say, say_number, say_task};
