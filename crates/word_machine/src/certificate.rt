//! Certificates that a word of a word machine is its least finishing one: bounds from below on the steps that are left
//! exclude each word that comes before it. Each function here is a law, with an empty body.

ghost use Rattle.std.specs.Prelude.{List, ℕ, ◌≤◌};
ghost use Rattle.word_machine.specs.Certificate.{IsBelow, IsCertificate};
ghost use Rattle.word_machine.specs.Worked.{CountdownCertified};
ghost use Rattle.word_machine.specs.Answer.{IsLeastFinishing};
ghost use Rattle.word_machine.specs.Machine.{WordMachine};
ghost use Rattle.word_machine.specs.Words.{step_count};

/// The word of a certificate by an admissible bound is the least finishing one, within each bound that has its steps.
pub fn certificates_hold<C>()
    ensures { (m : WordMachine C) (low : C → ℕ) (bound : ℕ) (word : List ℕ) → IsBelow m low → step_count word ≤ bound
        → IsCertificate m low word → IsLeastFinishing m bound word }
{}

/// In a machine that counts down the word by the lesser numbers has a certificate, and one with a greater number has none.
pub fn worked_certificate_holds()
    ensures { CountdownCertified }
{}
