//! Frames as masks, which are sets of atom numbers: the part of a state in one, and a state with another one's part in
//! its place. The frame of a mask has the fluent atoms of its numbers, and all static atoms.
ghost use Rattle.std.specs.Prelude.{◌≡◌, ◌&&◌, ◌||◌, ℕ, cond, true, IfOk, IsTrue};
ghost use Rattle.call_rules.specs.Frame as frames;
ghost use Rattle.htn_model.specs.Atom.{Atom};
ghost use Rattle.call_proof.specs.Masks.{frame_of};
ghost use Rattle.state_table.specs.Bits.{has};
ghost use Rattle.state_table.specs.Table.{IsSetOf, IsTable, Table, state_of};

use state_table::BitState;
use std::alloc::{AllocError, Global};

/// The part of a state in the frame of a mask.
pub fn within(alloc: Global, state: &BitState, mask: &BitState) -> Result<BitState, AllocError>
    ensures has { IfOk result (λ s. (x : ℕ) → has s x ≡ (has state.now x && has mask.now x)) }
    ensures state { IfOk result (λ s. (t : Table) → IsTable t
        → state_of t s ≡ frames.within (frame_of t mask.now) (state_of t state.now)) }
    ensures set { IfOk result (λ s. (t : Table) → IsSetOf t state.now → IsSetOf t s) }
{
    let part = BitState::new(alloc).with_part(mask, state)?;
    Ok(part)
}

/// A state with what is in the frame of a mask as another state has it.
pub fn lifted(state: &BitState, mask: &BitState, part: &BitState) -> Result<BitState, AllocError>
    ensures has { IfOk result (λ s. (x : ℕ)
        → has s x ≡ cond (has mask.now x) (has part.now x) (has state.now x)) }
    ensures state { IfOk result (λ s. (t : Table) → IsTable t
        → state_of t s ≡ frames.lift (frame_of t mask.now) (state_of t state.now) (state_of t part.now)) }
    ensures set { IfOk result (λ s. (t : Table) → IsSetOf t state.now → IsSetOf t part.now → IsSetOf t s) }
{
    let whole = state.with_part(mask, part)?;
    Ok(whole)
}

/// The mask with the numbers of two, whose frame has the atoms of both frames.
pub fn united(one: &BitState, other: &BitState) -> Result<BitState, AllocError>
    ensures has { IfOk result (λ s. (x : ℕ) → has s x ≡ (has one.now x || has other.now x)) }
    ensures frame { IfOk result (λ s. (t : Table) (a : Atom) → IsTable t
        → frame_of t s a ≡ (frame_of t one.now a || frame_of t other.now a)) }
{
    let both = one.with_part(other, other)?;
    Ok(both)
}

/// Whether each number of one mask is in another, so that the frame of the one is inside that of the other.
pub fn is_inside(inner: &BitState, outer: &BitState) -> bool
    ensures numbers { IsTrue result → (x : ℕ) → has inner.now x ≡ true → has outer.now x ≡ true }
    ensures frames { IsTrue result → (t : Table) → IsTable t
        → frames.IsInside (frame_of t inner.now) (frame_of t outer.now) }
{
    inner.is_inside(outer)
}
