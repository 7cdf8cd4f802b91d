//! What follows from the definition of the command line. Each function here is a law, with an empty body.
ghost use Rattle.htn_command.specs.Examples.{ExamplesHold};
ghost use Rattle.htn_command.specs.Request.{RequestsAreUnique};

/// Words ask for one request at most.
pub fn requests_are_unique()
    ensures { RequestsAreUnique }
{}

/// What some command lines give, and the faults of others, computed by the definitions.
pub fn worked_lines_hold()
    ensures { ExamplesHold }
{}
