//! Why a domain and a problem don't fit together.

use std::alloc::{AllocError, AllocFailed};
use std::fmt;
use thiserror::Error;

/// One of the two texts.
#[derive(Debug, Clone, Copy, PartialEq, Eq)]
pub enum Source {
    Domain,
    Problem,
}

impl fmt::Display for Source {
    ghost use Rattle.std.specs.Prelude.{Some};
    ghost use Rattle.hddl_meaning.specs.Texts.{source_text};

    ghost output = { λ source. Some (source_text source) };

    fn fmt<W: fmt::Write>(&self, f: &mut fmt::Formatter<W>) -> Result<(), fmt::Error> {
        match self {
            Source::Domain => f.write_str("domain"),
            Source::Problem => f.write_str("problem"),
        }
    }
}

/// Where a fault stands: a byte offset from 0 in one of the texts.
#[derive(Debug, Clone, Copy, PartialEq, Eq)]
pub struct At {
    pub source: Source,
    pub place: usize,
}

/// Why a domain and a problem don't fit together.
#[derive(Debug, Clone, Copy, PartialEq, Eq, Error)]
pub enum CheckFault {
    /// A second declaration, parameter or subtask of one name. The second one.
    #[error("{}: Duplicate at {}", .0.source, .0.place)]
    Duplicate(At),
    /// A type of a parameter, constant or object that isn't declared. The type's name.
    #[error("{}: UnknownType at {}", .0.source, .0.place)]
    UnknownType(At),
    /// A type that is below itself. A name in a declared pair whose parent leads back to its child.
    #[error("{}: TypeCycle at {}", .0.source, .0.place)]
    TypeCycle(At),
    /// A predicate, task, variable or object that isn't declared, or a method's task that is no compound one. The name.
    #[error("{}: UnknownName at {}", .0.source, .0.place)]
    UnknownName(At),
    /// A wrong number of arguments. The name of the predicate, task or action.
    #[error("{}: Arity at {}", .0.source, .0.place)]
    Arity(At),
    /// An argument that can't have the type of its place. The argument.
    #[error("{}: TypeClash at {}", .0.source, .0.place)]
    TypeClash(At),
    /// A network whose order has a cycle. The opening bracket of the method or of `:htn`.
    #[error("{}: OrderCycle at {}", .0.source, .0.place)]
    OrderCycle(At),
    /// A name in `:ordering` that no subtask of the network has. The name.
    #[error("{}: UnknownSubtask at {}", .0.source, .0.place)]
    UnknownSubtask(At),
    /// More declarations, parameters or subtasks than the limit. The first past it.
    #[error("{}: TooMany at {}", .0.source, .0.place)]
    TooMany(At),
    /// Memory was refused.
    #[error("OutOfMemory")]
    OutOfMemory,
}

impl From<AllocError> for CheckFault {
    ghost use Rattle.std.specs.Prelude.{◌≡◌};
    ghost use Rattle.hddl_meaning.specs.declared.fault.CheckFault.TheVariants.{OutOfMemory};

    ghost from_gives = { λ _ e. e ≡ OutOfMemory };

    fn from(_error: AllocError) -> CheckFault {
        CheckFault::OutOfMemory
    }
}

impl<T: Drop> From<AllocFailed<T>> for CheckFault {
    ghost use Rattle.std.specs.Prelude.{◌≡◌};
    ghost use Rattle.hddl_meaning.specs.declared.fault.CheckFault.TheVariants.{OutOfMemory};

    ghost from_gives = { λ _ e. e ≡ OutOfMemory };

    fn from(_error: AllocFailed<T>) -> CheckFault {
        CheckFault::OutOfMemory
    }
}
