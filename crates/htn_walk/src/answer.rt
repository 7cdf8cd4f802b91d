//! A search over the word machine of a ground problem answers the problem. Each function here is a law, with an empty
//! body.

ghost use Rattle.htn_walk.specs.Answered.{IsAnswered, IsExact};
ghost use Rattle.htn_walk.specs.Fewer.{FinishesLive, HasEnough, IsToldBy};
ghost use Rattle.htn_walk.specs.Machine.{IsOwn, machine_of};
ghost use Rattle.htn_model.specs.Problem.{IsGrounded, Problem};
ghost use Rattle.word_machine.specs.Answer.{IsAnswer};
ghost use Rattle.word_machine.specs.Machine.{IsLawful, WordMachine};
ghost use Rattle.word_machine.specs.declared.found.Found.{Found};
ghost use Rattle.std.specs.Prelude.{ℕ};

/// The word machine of a ground problem meets the conditions of a search: a step needs an open node and closes at most
/// one, nothing is open where it is done, and no finishing word has a dead number.
pub fn machine_is_lawful()
    ensures lawful { (problem : Problem) → IsGrounded problem → IsLawful (machine_of problem) (IsOwn problem) }
{}

/// A word that is found is the least finishing one, and the solution whose code it is answers the problem. None is
/// found exactly where no solution is within the bound and the bound was met, and unsolvable exactly where there is no
/// solution and the bound was not met.
pub fn found_answers()
    ensures answered { (problem : Problem) (bound : ℕ) (found : Found) → IsGrounded problem → IsAnswer (machine_of problem) bound found → IsAnswered problem bound found }
    ensures exact { (problem : Problem) (bound : ℕ) (found : Found) → IsGrounded problem → IsAnswer (machine_of problem) bound found → IsExact problem bound found }
{}

/// Of numbers that lead to equal configurations only the first can be on the least finishing word. So a machine that
/// has all others but the dead ones, in their order and numbered anew, has the answer of the whole machine: the least
/// word, once it is translated into the whole machine's numbers, none or unsolvable.
pub fn fewer_numbers_suffice<C>()
    ensures { (m few : WordMachine C) (initial_of : ℕ → ℕ) (number_of : C → ℕ → ℕ) → FinishesLive m → HasEnough m few initial_of number_of
        → (bound : ℕ) (found tells : Found) → IsAnswer few bound found → IsToldBy m few initial_of number_of found tells → IsAnswer m bound tells }
{}
