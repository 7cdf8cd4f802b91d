//! The kinds of atomic step: a draw, a report and a look. Views are cut when a desk is made, and joined when it is
//! closed.

use crate::view::View;
use atomic_table::{Join, Play, Split};

/// The draw word grows by one.
pub struct Draw;

impl Play<(), View> for Draw {
    ghost use Rattle.word_machine.specs.Views.{Draws};

    ghost then = { Draws };
}

/// The least word becomes the smaller of itself and the place.
pub struct Report;

impl Play<(), View> for Report {
    ghost use Rattle.word_machine.specs.Views.{Reports};

    ghost then = { Reports };
}

/// The least word is read.
pub struct Look;

impl Play<(), View> for Look {
    ghost use Rattle.word_machine.specs.Views.{Looks};

    ghost then = { Looks };
}

/// Splits one seat off, with a view of its own.
pub struct OneSeat;

impl Split<View> for OneSeat {
    ghost use Rattle.word_machine.specs.Views.{without_one, one_seat};

    ghost left = { without_one };

    ghost right = { λ v. one_seat v.size };
}

impl Join<View> for OneSeat {
    ghost use Rattle.word_machine.specs.Views.{joined, spent_view};

    ghost both = { λ v w. joined w v };

    ghost spent = { spent_view };
}
