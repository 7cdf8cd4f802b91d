//! Laws of columns: on the line of a fault a column is the same number in bytes, characters and UTF-16 units.

ghost use Rattle.std.specs.Prelude.{◌≡◌, List, [], ℕ, ◌∷◌, ◌++◌};
ghost use Rattle.hddl_words.specs.declared.fault.TextFault.{TextFault as Fault};
ghost use Rattle.hddl_words.specs.Words.{Word};
ghost use Rattle.hddl_words.specs.Standing.{AreWords};
ghost use Rattle.hddl_words.specs.Faults.{WordFaultAt, IsLeftmost, HasNoWordFault};
ghost use Rattle.text_messages.specs.Columns.{ColumnsAgree, AgreesAt};

/// Before the place of the first fault of a text's words, and before each word of a text whose words have no fault,
/// its line has only bytes that are one character and one UTF-16 unit each.
pub fn columns_agree()
    ensures faults { (text : List ℕ) (fault : Fault) → WordFaultAt text fault → IsLeftmost text fault → AgreesAt text fault }
    ensures words { (text : List ℕ) (ws front rest : List Word) (w : Word) → AreWords [] text ws → HasNoWordFault text → ws ≡ front ++ w ∷ rest → ColumnsAgree text w.place }
{}
