//! The details of valid plan files: which instance of its method each decomposition line is, and how many actions come
//! before each precondition step. The definitions are in `specs/`; each function here is a law, with an empty body.

ghost use Rattle.htn_model.specs.PlanFile.{Naming};
ghost use Rattle.htn_model.specs.Problem.{IsGrounded, Problem};
ghost use Rattle.line_details.specs.Certificate.{CertificatesDecide, CertificatesFit};
ghost use Rattle.line_details.specs.Details.{LinesAreDetailed, ValidFilesHaveDetails};
ghost use Rattle.line_details.specs.Worked.{FilesHaveDetails};

/// The valid files are those that have details.
pub fn valid_files_have_details()
    ensures have { (naming : Naming) (problem : Problem) → ValidFilesHaveDetails naming problem }
{}

/// The details of a line name an instance of its method, whose steps hold after as many actions as
/// they say.
pub fn lines_are_detailed()
    ensures detailed { (naming : Naming) (problem : Problem) → LinesAreDetailed naming problem }
{}

/// Where a file's lines are a forest and run to the goal, details have a certificate, which is checked
/// line by line, exactly if they are those of one solution whose shadow the file is.
pub fn certificates_decide()
    ensures decide { (naming : Naming) (problem : Problem) → IsGrounded problem → CertificatesDecide naming problem }
{}

/// Where there is a certificate the lines have room.
pub fn certificates_fit()
    ensures fit { (naming : Naming) (problem : Problem) → IsGrounded problem → CertificatesFit naming problem }
{}

/// Small plan files with their details, as the definitions give them: of two instances of one method
/// the one whose step can hold, and a step that comes after an action beside its task.
pub fn worked_details_hold()
    ensures hold { FilesHaveDetails }
{}
