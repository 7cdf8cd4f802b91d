//! Consequences of the definitions of an answer and a verdict. Each function here is a law, with an empty body.
ghost use Rattle.htn_review.specs.Laws.{AnswersAreUnique, AnswersExist, FaultyHaveNoAnswer, TextsHaveATask, TextsHaveOneTask};
ghost use Rattle.htn_review.specs.Laws.{NamedIsListedFirst};
ghost use Rattle.htn_review.specs.Laws.{FaultyHaveNoVerdict, LongPlansAreRefused, PlansAreValid, ValidIsSolved, VerdictsAreTold, VerdictsAreUnique, VerdictsExist};

/// The two texts and the bound determine the outcome and the text of the answer. Texts have one task at most.
pub fn answers_are_unique()
    ensures task { TextsHaveOneTask }
    ensures answer { AnswersAreUnique }
{}

/// A domain and a problem that fit together have a task, and with it an answer for each bound.
pub fn answers_exist()
    ensures task { TextsHaveATask }
    ensures answer { AnswersExist }
{}

/// A domain and a problem that are refused for a fault of theirs have no answer, for any bound.
pub fn faulty_texts_have_no_answer()
    ensures none { FaultyHaveNoAnswer }
{}

/// What `check` lists first is the fault for which `plan` refuses a domain and a problem: a fault of the same text, and
/// where both spell trees the same fault.
pub fn named_faults_are_listed_first()
    ensures first { NamedIsListedFirst }
{}

/// The three texts determine the verdict and its text. Different verdicts have different texts.
pub fn verdicts_are_unique()
    ensures verdict { VerdictsAreUnique }
    ensures told { VerdictsAreTold }
{}

/// A domain and a problem that fit together, and a plan's text that holds a file, have a verdict. It is `valid` exactly
/// where the file is the shadow of a solution.
pub fn verdicts_exist()
    ensures verdict { VerdictsExist }
    ensures valid { ValidIsSolved }
{}

/// A domain, a problem and a plan that are refused for a fault of theirs have no verdict.
pub fn faulty_texts_have_no_verdict()
    ensures none { FaultyHaveNoVerdict }
{}

/// The planner and the verifier agree: the text of a plan that answers a domain and a problem, for whatever bound, is
/// valid for them. Only where it has more bytes than a text may have is it refused as `TooLong`.
pub fn plans_are_valid()
    ensures valid { PlansAreValid }
    ensures long { LongPlansAreRefused }
{}
