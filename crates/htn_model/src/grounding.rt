//! A checked task gives a ground problem on which the theory stands.

ghost use Rattle.htn_model.specs.Grounding.{TasksAreGrounded};

/// The ground problem of a well-typed task: its networks have closed orders, the precondition step
/// first, and its actions change only atoms of predicates that an effect of the domain names.
pub fn tasks_are_grounded()
    ensures grounded { TasksAreGrounded }
{}
