//! Worked examples.

ghost use Rattle.hddl_warnings.specs.Examples.{WarningsHold};

/// Small trees that warn of a parameter, a predicate and an action, and one that warns of nothing.
pub fn worked_examples_hold()
    ensures { WarningsHold }
{}
