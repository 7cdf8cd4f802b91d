//! Command lines that ask for no run.
ghost use Rattle.std.specs.Prelude.{◌≡◌, ◌≢◌, true};
ghost use Rattle.clap.specs.Words.{kind_of};
ghost use Rattle.htn_command.specs.Help as spec;

use clap::Error;
use clap::error::ErrorKind;

/// Why nothing is run. The texts are `clap`'s.
#[derive(Debug, Drop)]
pub enum Refusal {
    /// Help was asked for, and this is its text.
    Help(Error),
    /// The version was asked for, and this is its text.
    Version(Error),
    /// The words are refused, and this text says why.
    Words(Error),
    /// Memory was refused.
    OutOfMemory,
}

/// Whether a word asks for help.
fn is_help_word(word: &[u8]) -> bool
    ensures { result ≡ spec.is_help_word word.now }
{
    if word == b"help".as_slice() {
        return true;
    }
    word.starts_with(b"--help") || word.starts_with(b"-h")
}

/// Whether a word asks for the version.
fn is_version_word(word: &[u8]) -> bool
    ensures { result ≡ spec.is_version_word word.now }
{
    word.starts_with(b"--version") || word.starts_with(b"-V")
}

/// Whether one of the words asks for help.
fn ask_for_help(words: &[String]) -> bool
    ensures { result ≡ spec.asks_for_help words.now }
{
    words.iter().any(|word| is_help_word(word.as_bytes()))
}

/// Whether one of the words asks for the version.
fn ask_for_version(words: &[String]) -> bool
    ensures { result ≡ spec.asks_for_version words.now }
{
    words.iter().any(|word| is_version_word(word.as_bytes()))
}

impl Refusal {
    /// What an error of `clap` over these words is.
    pub(crate) fn of(error: Error, words: &[String]) -> Refusal
        ensures refused { spec.IsOfWords result → kind_of error ≢ ErrorKind.OutOfMemory }
        ensures help { spec.ShowsHelp result → kind_of error ≡ ErrorKind.DisplayHelp }
        ensures asked { spec.ShowsHelp result → spec.asks_for_help words.now ≡ true }
        ensures version { spec.ShowsVersion result → kind_of error ≡ ErrorKind.DisplayVersion }
        ensures wanted { spec.ShowsVersion result → spec.asks_for_version words.now ≡ true }
        ensures mistaken { spec.RefusesWords result → spec.IsAskedText words.now (kind_of error) → ⊥ }
    {
        if error.kind() == ErrorKind::OutOfMemory {
            return Refusal::OutOfMemory;
        }
        if error.kind() == ErrorKind::DisplayHelp && ask_for_help(words) {
            return Refusal::Help(error);
        }
        if error.kind() == ErrorKind::DisplayVersion && ask_for_version(words) {
            return Refusal::Version(error);
        }
        Refusal::Words(error)
    }
}
