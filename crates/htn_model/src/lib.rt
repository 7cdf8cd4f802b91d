//! The mathematics of hierarchical task network planning: tasks and their instances, ground problems, states, task
//! networks, decomposition trees, linearisations, solutions and their codes, the word machine (progression), the answer
//! for a bound, the search by levels, plan files and verdicts. The definitions are in `specs/`; each function here is a
//! law about them, with an empty body.
#![tactic(auto)]

pub mod grounding;
pub mod plans;

ghost use Rattle.htn_model.specs.Along.{MachineFollows};
ghost use Rattle.htn_model.specs.Equality.{TestsDecide};
ghost use Rattle.htn_model.specs.Examples as examples;
ghost use Rattle.htn_model.specs.Exhaustion.{DeadNumbersNeverFinish, ExhaustionDecides, live_step};
ghost use Rattle.htn_model.specs.Levels.{IsSound, LevelsFindLeast};
ghost use Rattle.htn_model.specs.Machine.{Config, ConfigsAreProper, OpenNodesTakeSteps, step_by};
ghost use Rattle.htn_model.specs.Members.{StatesAreSets};
ghost use Rattle.htn_model.specs.Met.{MetIsLeftOut};
ghost use Rattle.htn_model.specs.OneToOne.{LeastWordAnswers, OneToOne};
ghost use Rattle.htn_model.specs.Problem.{IsGrounded, Problem};
ghost use Rattle.htn_model.specs.Road.{TripIsPlanned};
ghost use Rattle.std.specs.Prelude.{Bool, ℕ};

/// A state is a set of ground atoms: two states in which the same atoms are true are equal, and an
/// action leaves true what it adds and, of what was true, what it doesn't delete.
pub fn states_are_sets()
    ensures sets { StatesAreSets }
{}

/// Each test of equality, of atoms, states, literals, tasks, children, orders, networks, instances and
/// configurations, is true exactly of equal values.
pub fn tests_of_equality_decide()
    ensures decide { TestsDecide }
{}

/// Each solution has one code, with one number for each node and one for its initial network, and
/// the code is a word that finishes. Each word that finishes is the code of exactly one solution.
pub fn codes_are_words()
    ensures one_to_one { (problem : Problem) → IsGrounded problem → OneToOne problem }
{}

/// The solution whose code is the least finishing word is the answer, and no bound has two answers.
pub fn least_word_answers()
    ensures answers { (problem : Problem) → IsGrounded problem → LeastWordAnswers problem }
{}

/// After each number of a solution's code the machine's open nodes are the front, and their order
/// is that of the forest.
pub fn machine_follows_front()
    ensures follows { (problem : Problem) → IsGrounded problem → MachineFollows problem }
{}

/// A finishing word has at least one number for each open node on its way, and a configuration of a
/// run is determined by its state, its open nodes and the entries of its order.
pub fn configs_are_bounded_and_proper()
    ensures open_nodes { (problem : Problem) → OpenNodesTakeSteps problem }
    ensures proper { (problem : Problem) → ConfigsAreProper problem }
{}

/// Dead numbers change no answer. Where the bound is not met, no answer within it means no solution
/// at all. The bound is met where the search without dead numbers leaves a new configuration out.
pub fn exhaustion_decides()
    ensures dead { (problem : Problem) → IsGrounded problem → DeadNumbersNeverFinish problem }
    ensures decides { (problem : Problem) → IsGrounded problem → ExhaustionDecides problem }
    ensures met { (problem : Problem) → IsGrounded problem → MetIsLeftOut problem }
{}

/// The search by levels, with equal configurations dropped, finds the least finishing word, with all
/// numbers and without the dead ones.
pub fn levels_find_least()
    ensures all_numbers { (problem : Problem) (same : Config → Config → Bool) (bound : ℕ) → IsSound same → LevelsFindLeast problem (step_by problem) same bound }
    ensures live_numbers { (problem : Problem) (same : Config → Config → Bool) (bound : ℕ)
        → IsGrounded problem → IsSound same → LevelsFindLeast problem (live_step problem) same bound }
{}

/// Small problems with their answers, as the definitions give them. An atom both deleted and added is true. A method's
/// precondition is tested at its step's place. Of solutions of one size the answer is the one of least code. An order
/// that follows from a task between two others remains where that task is decomposed into an empty network. All
/// children of a decomposed task have its order towards the others. A task that is always decomposed into itself has no
/// solution; neither has one that is decomposed into two of itself, but every bound leaves a configuration out there.
/// Initial networks and instances are numbered from 0, and an instance with a false literal that no effect can change
/// is dead.
pub fn worked_examples_hold()
    ensures adds { examples.AddsComeLast }
    ensures steps { examples.StepsAreTestedInPlace }
    ensures codes { examples.LeastCodeAnswers }
    ensures through { examples.OrderGoesThroughEmptyTasks }
    ensures children { examples.ChildrenInheritOrder }
    ensures endless { examples.EndlessTasks }
    ensures numbers { examples.NumbersAreChosen }
{}

/// A truck that drives over two roads: eight nodes, found by the bound 8 and not by 7, with its code.
pub fn trip_is_planned()
    ensures planned { TripIsPlanned }
{}
