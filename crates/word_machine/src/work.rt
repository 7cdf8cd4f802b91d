//! What a level asks of a search problem, and of a gate.
ghost use Rattle.std.specs.Prelude.{◌≡◌, ℕ, List, ◌++◌, IfOk, IfSome, IfNone, OnErr};

use std::alloc::AllocError;

/// How the configurations of a level are expanded. Each is named by its rank, its place in the closed list of the
/// search.
pub trait Expand: Sync {
    /// A successor, in the form in which a worker hands it on.
    type Successor: Send + Drop;
    /// How a configuration leads to a done successor.
    type Finish: Send + Drop;

    // That a configuration stands at this rank, and can be expanded here.
    ghost can_expand: { Self → ℕ → Type 0 };

    // The configuration at this rank has no done successor, and these are its successors, in order.
    ghost has_successors: { Self → ℕ → List Self.Successor → Type 0 };

    // The configuration at this rank has a done successor, and leads to it so.
    ghost finishes: { Self → ℕ → Self.Finish → Type 0 };

    /// How the configuration at this rank leads to a done successor, if it has one. If it has none, its successors are
    /// appended. Where memory is refused, the list still begins with what it had.
    fn expand(
        &self,
        rank: usize,
        successors: &mut Vec<Self::Successor>,
    ) -> Result<Option<Self::Finish>, AllocError>
        requires { can_expand self.now rank }
        ensures whole { IfOk result (λ done. IfNone done ((more : List Self.Successor) × (successors.new.items ≡ successors.old.items ++ more) × has_successors self.now rank more)) }
        ensures done { IfOk result (λ done. IfSome done (finishes self.now rank)) }
        ensures refused { OnErr result ((more : List Self.Successor) × (successors.new.items ≡ successors.old.items ++ more)) };
}

/// A gate is called once for each piece that a worker draws, with its number in the level, before the worker looks at
/// the least place reported and before it expands the piece.
pub trait Gate: Sync {
    fn at(&self, piece: u64);
}

/// The gate that does nothing.
#[derive(Clone, Copy)]
pub struct NoGate;

impl Gate for NoGate {
    fn at(&self, _piece: u64) {}
}
