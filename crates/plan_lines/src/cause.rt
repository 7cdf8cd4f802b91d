//! Causes.

/// Why words name no task at objects that it takes, or no instance of an action.
#[derive(Clone, Copy, PartialEq, Eq, Debug)]
pub enum WordsCause {
    /// No compound task or action has the name.
    NoTask,
    /// The name is that of an action where a compound task has to stand, or of a compound task in place of an action.
    OtherKind,
    /// It takes this many arguments, and another number stands there.
    Arguments { wanted: usize },
    /// The argument at this place is no object.
    NoObject { place: usize },
    /// The object at this place hasn't the type of the place.
    ObjectType { place: usize },
    /// The part of the action's precondition with this number is an equality, which fails at these objects.
    Equality { number: usize },
    /// An atom of the action's precondition or effects would have an object at a place of another type.
    AtomType,
}
