//! Laws of outputs. Reports for people are inks, of which the laws on colour and tame bytes speak.

ghost use Rattle.std.specs.Prelude.{◌≡◌, ℕ, Bool, true, false, List, [], Option, None, codes};
ghost use Rattle.diagnostics.specs.Ink.{Ink, written};
ghost use Rattle.diagnostics.specs.declared.diagnostic.Diagnostic.{Diagnostic};
ghost use Rattle.diagnostics.specs.declared.reached.Reached.{Reached};
ghost use Rattle.diagnostics.specs.Json.{json_bytes, IsOneLine};
ghost use Rattle.diagnostics.specs.Verdicts.{explained_bytes};
ghost use Rattle.diagnostics.specs.Tame.{IsTame, HasTameNames, plain};

/// What is written has no control byte but tabs and line feeds and, in colour, the sequences of the styles, unless the
/// name of a file has one.
pub fn output_is_tame()
    ensures { (colour : Bool) (inks : List Ink) → HasTameNames inks → IsTame colour (written colour inks) }
{}

/// What is written in colour is, without its escape sequences, what is written without colour, unless the name of a
/// file has a control byte.
pub fn colour_is_dress()
    ensures { (inks : List Ink) → HasTameNames inks → plain false (written true inks) ≡ written false inks }
{}

/// A report as JSON has no byte below 32 but the line feed at its end, whatever the texts and the names of files have.
pub fn json_is_one_line()
    ensures { (ds : List Diagnostic) (reached : Option Reached) → IsOneLine (json_bytes ds reached) }
{}

/// A verdict with its diagnostics as JSON has no byte below 32 but the line feed at its end.
pub fn verdict_is_one_line()
    ensures { (verdict : Option (List ℕ)) (ds : List Diagnostic) → IsOneLine (explained_bytes verdict ds) }
{}

/// The report as JSON on texts without diagnostics.
pub fn json_of_no_diagnostics()
    ensures { json_bytes [] None ≡ codes "{\"diagnostics\":[],\"errors\":0,\"format\":\"htnplan-check\",\"version\":1,\"warnings\":0}\n" }
{}
