//! Tables of calls in frames. A frame is a test of atoms. A call is a block in the part of a state in the block's frame,
//! and stands for that block in each state with that part: what is out of the frame stays as it is. The definitions are
//! in `specs/`; each function here is a law about them, with an empty body.

ghost use Rattle.call_rules.specs.Closed.{FramesLift};
ghost use Rattle.call_rules.specs.Framed.{FramedTablesStand};
ghost use Rattle.call_rules.specs.Lifted.{LiftedBelow};
ghost use Rattle.call_rules.specs.FramedValues.{FramedValuesBelow};
ghost use Rattle.call_rules.specs.Rules.{RulesAreLocal};
ghost use Rattle.call_rules.specs.FrameExamples.{CallsAreLiftedSo, CallsCloseSo, NodesHaveFramesSo, StatesArePartedSo, ValuesAreSo};
ghost use Rattle.call_rules.specs.FramedNumbers.{FramedNumbersBound};
ghost use Rattle.htn_calls.specs.Calls.{Rules, Table};
ghost use Rattle.call_rules.specs.Frame.{Frame};
ghost use Rattle.call_rules.specs.Frame.{StatesHaveParts};
ghost use Rattle.call_rules.specs.Local.{GoalsAreLocal, NodesAreLocal};
ghost use Rattle.htn_model.specs.Problem.{Child};
ghost use Rattle.htn_model.specs.State.{State};
ghost use Rattle.htn_model.specs.Task.{Task};
ghost use Rattle.std.specs.Prelude.{Bool, List, ℕ};

/// The part of a state in a frame, and what lifting puts in its place, by the atoms; and how parts of lifted states are
/// lifted again.
pub fn states_have_parts()
    ensures { StatesHaveParts }
{}

/// A step or an action is carried out in a frame of all that it reads or writes as in the whole state, whose other
/// atoms stay as they are; and literals hold in a frame that has their atoms as in the whole state.
pub fn nodes_are_local()
    ensures nodes { NodesAreLocal }
    ensures goals { GoalsAreLocal }
{}

/// A table of calls in frames is lifted to one of blocks in whole states. Where the calls are closed in their frames,
/// the lifted table is closed over rules that are local to the frames.
pub fn frames_lift()
    ensures tables { FramedTablesStand }
    ensures closed { FramesLift }
{}

/// Values of lists of blocks in parts of states that follow from the call of the first block, at each of its exits in
/// the part for the others, are no more than the estimate by the lifted table.
pub fn framed_values_below()
    ensures { FramedValuesBelow }
{}

/// The estimate by calls in whole states, each lifted from a call in a part, is no more than that by the lifted table.
pub fn lifted_below()
    ensures { LiftedBelow }
{}

/// The rules of a node in a state are those in its part in a frame of all that the node reads or writes, lifted.
pub fn rules_are_local()
    ensures { (t : Task) → RulesAreLocal t }
{}

/// Calls and values in frames that are checked by the numbers of states and nodes have an admissible bound, which in
/// each state is no less than the values in its parts.
pub fn framed_numbers_bound()
    ensures { (t : Task) (passes : State → Bool) (size : Child → ℕ) (state : ℕ → State) (node : ℕ → Child)
        (frame : ℕ → Frame) (goal_frame : Frame) (numbers : Rules ℕ ℕ) (listing : Table ℕ ℕ) (sites : List (ℕ × ℕ))
        (total : List ℕ → ℕ) (cap : ℕ) (value : List ℕ → ℕ → ℕ)
        → FramedNumbersBound t passes size state node frame goal_frame numbers listing sites total cap value }
{}

/// A task that leads to an action in two steps, worked out in frames: what they part and lift, the calls and the
/// values, and which of these do not pass.
pub fn worked_frames_hold()
    ensures states { StatesArePartedSo }
    ensures nodes { NodesHaveFramesSo }
    ensures calls { CallsAreLiftedSo }
    ensures closed { CallsCloseSo }
    ensures values { ValuesAreSo }
{}
