//! Laws of the definitions that the contracts use.
ghost use Rattle.state_table.specs.StandFor.{NumbersStandForStates};

/// A number stands for the same state as tables grow, and no state has two numbers.
pub fn numbers_stand_for_states()
    ensures { NumbersStandForStates }
{}
