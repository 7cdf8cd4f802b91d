//! The lines of a plan file, as the one who read it gives them.
ghost use Rattle.std.specs.Prelude.{◌≡◌, ◌≤◌, ◌<◌, IfOk};

use htn_ground::{GroundTask, Instance};
use htn_task::LiteralList;
use std::alloc::AllocError;
use std::borrow::CowSlice;

/// The lines of a plan file by their numbers: action lines in their order, and then the others; and
/// the run of the action lines. Gap i is just before action line i.
pub trait PlanLines {
    ghost use Rattle.std.specs.Cow.{cow_slice_items};
    ghost use Rattle.plan_room.specs.Lines.{AreCandidates, IsDecompositionLine, IsInitial, IsNetworkOf, IsNextGap, Lines, networks_of, task_of};

    // What the lines are.
    ghost lines: { Self → Lines };

    /// How many action lines there are.
    fn actions(&self) -> usize
        ensures { result ≡ (lines self.now).actions };

    /// How many lines there are.
    fn count(&self) -> usize
        ensures { result ≡ (lines self.now).count };

    /// The task of a line.
    fn task(&self, line: usize) -> &GroundTask
        requires { line < (lines self.now).count }
        ensures { result.now ≡ task_of ((lines self.now).plan_of line) };

    /// The children of a decomposition line, as listed.
    fn children(&self, line: usize) -> &[usize]
        requires { IsDecompositionLine (lines self.now) line }
        ensures { result.now ≡ (lines self.now).children line };

    /// The roots, as listed.
    fn roots(&self) -> &[usize]
        ensures { result.now ≡ (lines self.now).roots };

    /// The instances of a decomposition line that may fit: a stored list, or one that is made at each call.
    fn instances(&self, line: usize) -> Result<CowSlice<'_, Instance>, AllocError>
        requires { IsDecompositionLine (lines self.now) line }
        ensures { IfOk result (λ v. AreCandidates (lines self.now) (IsNetworkOf (lines self.now) line) ((lines self.now).children line) (networks_of (cow_slice_items v))) };

    /// The initial networks that may fit.
    fn initials(&self) -> Result<Vec<Instance>, AllocError>
        ensures { IfOk result (λ v. AreCandidates (lines self.now) (IsInitial (lines self.now)) (lines self.now).roots (networks_of v.items)) };

    /// The first gap from one on, up to the last, in which all literals hold.
    fn next_gap(&self, literals: &LiteralList, from: usize, last: usize) -> Option<usize>
        requires { last ≤ (lines self.now).actions }
        ensures { IsNextGap (lines self.now).states last literals.now from result };
}
