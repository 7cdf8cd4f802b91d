//! What a pass knows, and the rule on the desk's two words and all views.

use atomic_table::TableRule;
use std::collections::LinkedList;

/// What a pass knows. It lives in contracts alone: no value of it is made.
pub struct View {
    /// How many seats it stands for. A spent view stands for none.
    pub seats: u64,
    /// How many of these have ended.
    pub ended: u64,
    /// The size of its desk.
    pub size: Size,
    pub drawn: LinkedList<u64>,
    pub reported: LinkedList<u64>,
    pub seen: LinkedList<u64>,
}

/// How many pieces and seats a desk has.
#[derive(Clone, Copy)]
pub struct Size {
    pub pieces: u64,
    pub seats: u64,
}

pub struct DeskRule;

impl TableRule<(), View, Size> for DeskRule {
    ghost use Rattle.word_machine.specs.Views.{Kept, whole};

    ghost holds = { Kept };

    ghost first = { whole };
}
