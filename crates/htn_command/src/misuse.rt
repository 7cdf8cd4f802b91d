//! What is refused of words that `clap` takes.
ghost use Rattle.std.specs.Prelude.{◌≡◌, ◌≢◌, ◌&&◌, Some, IfOk, codes, option_map};
ghost use Rattle.clap.specs.Words.{found_of, kind_of, rows_of, subcommand_name_of, subcommand_rows_of};
ghost use Rattle.htn_command.specs.CommandLine as line;
ghost use Rattle.htn_command.specs.Misuse as spec;

use crate::choice::{colour_named, drawing_named, format_named};
use crate::request::command;
use clap::error::ErrorKind;
use clap::{ArgMatches, Error};
use std::alloc::{AllocError, Global};

/// What is refused.
#[derive(Clone, Copy, Debug)]
pub(crate) enum Misuse {
    /// A word of `--format` that names no format.
    Format,
    /// A word of `--color` that names no time.
    Colour,
    /// The standard input, twice.
    Inputs,
    /// A word of `--format` that names no drawing.
    Drawing,
    /// The standard input, for two of three files.
    InputTwice,
}

impl Misuse {
    /// The first of them that the words of `clap` have.
    pub(crate) fn of(matches: &ArgMatches<'_>) -> Option<Misuse>
        ensures { spec.kinds_of result ≡ line.own_fault (subcommand_rows_of matches.now) }
    {
        match matches.subcommand_matches("check") {
            Some(check) => Misuse::of_check(check),
            None => Misuse::of_other(matches),
        }
    }

    // The misuse of a command that isn't `check`, if there is one.
    fn of_other(matches: &ArgMatches<'_>) -> Option<Misuse>
        ensures { subcommand_name_of matches.now ≢ Some (codes "check") → spec.kinds_of result ≡ line.own_fault (subcommand_rows_of matches.now) }
    {
        match matches.subcommand_matches("explain") {
            Some(explain) => Misuse::of_explain(explain),
            None => Misuse::of_pictures(matches),
        }
    }

    // The misuse of a command that is neither `check` nor `explain`, if there is one.
    fn of_pictures(matches: &ArgMatches<'_>) -> Option<Misuse>
        ensures { subcommand_name_of matches.now ≢ Some (codes "check") → subcommand_name_of matches.now ≢ Some (codes "explain")
            → spec.kinds_of result ≡ line.own_fault (subcommand_rows_of matches.now) }
    {
        match matches.subcommand_matches("tree") {
            Some(tree) => Misuse::of_tree(tree),
            None => None,
        }
    }

    // The first of them that the words of `check` have.
    fn of_check(check: &ArgMatches<'_>) -> Option<Misuse>
        ensures { spec.kinds_of result ≡ line.check_fault (rows_of (found_of check.now)) }
    {
        let no_format = is_no_format(check.get_str("format"));
        let no_colour = is_no_colour(check.get_str("color"));
        let two_inputs = are_inputs(check.get_str("DOMAIN"), check.get_str("PROBLEM"));
        Misuse::first(no_format, no_colour, two_inputs)
    }

    // The first of them that the words of `explain` have.
    fn of_explain(explain: &ArgMatches<'_>) -> Option<Misuse>
        ensures { spec.kinds_of result ≡ line.explain_fault (rows_of (found_of explain.now)) }
    {
        let no_format = is_no_format(explain.get_str("format"));
        let no_colour = is_no_colour(explain.get_str("color"));
        let domain = is_input(explain.get_str("DOMAIN"));
        let problem = is_input(explain.get_str("PROBLEM"));
        let plan = is_input(explain.get_str("PLAN"));
        Misuse::first_of_three(
            no_format,
            Misuse::Format,
            no_colour,
            are_two(domain, problem, plan),
        )
    }

    // The first of them that the words of `tree` have.
    fn of_tree(tree: &ArgMatches<'_>) -> Option<Misuse>
        ensures { spec.kinds_of result ≡ line.tree_fault (rows_of (found_of tree.now)) }
    {
        let no_drawing = is_no_drawing(tree.get_str("format"));
        let no_colour = is_no_colour(tree.get_str("color"));
        let domain = is_input(tree.get_str("DOMAIN"));
        let problem = is_input(tree.get_str("PROBLEM"));
        let plan = is_input(tree.get_str("PLAN"));
        Misuse::first_of_three(
            no_drawing,
            Misuse::Drawing,
            no_colour,
            are_two(domain, problem, plan),
        )
    }

    // The first that is so of a command with three files, of which `unknown` is a word of `--format`.
    fn first_of_three(
        is_unknown: bool,
        unknown: Misuse,
        no_colour: bool,
        input_twice: bool,
    ) -> Option<Misuse>
        requires { spec.kind_of_misuse unknown ≡ ErrorKind.InvalidValue }
        ensures { spec.kinds_of result ≡ line.refused_kinds is_unknown no_colour input_twice }
    {
        if is_unknown {
            return Some(unknown);
        }
        if no_colour {
            return Some(Misuse::Colour);
        }
        if input_twice {
            return Some(Misuse::InputTwice);
        }
        None
    }

    // The first of those of `check` that is so.
    fn first(no_format: bool, no_colour: bool, two_inputs: bool) -> Option<Misuse>
        ensures { spec.kinds_of result ≡ line.refused_kinds no_format no_colour two_inputs }
    {
        if no_format {
            return Some(Misuse::Format);
        }
        if no_colour {
            return Some(Misuse::Colour);
        }
        if two_inputs {
            return Some(Misuse::Inputs);
        }
        None
    }

    /// The error that says so.
    pub(crate) fn error(self, alloc: Global) -> Result<Error, AllocError>
        ensures { IfOk result (λ e. kind_of e ≡ spec.kind_of_misuse self) }
    {
        let mut command = command(alloc)?;
        match self {
            Misuse::Format => command.error(ErrorKind::InvalidValue, FORMATS),
            Misuse::Colour => command.error(ErrorKind::InvalidValue, COLOURS),
            Misuse::Inputs => command.error(ErrorKind::ArgumentConflict, INPUTS),
            Misuse::Drawing => command.error(ErrorKind::InvalidValue, DRAWINGS),
            Misuse::InputTwice => command.error(ErrorKind::ArgumentConflict, INPUT_TWICE),
        }
    }
}

const FORMATS: &str = "invalid value for '--format <FORMAT>'
  [possible values: text, short, json]";

const COLOURS: &str = "invalid value for '--color <WHEN>'
  [possible values: auto, always, never]";

const INPUTS: &str = "the standard input, `-`, cannot be both the domain and the problem";

const DRAWINGS: &str = "invalid value for '--format <FORMAT>'
  [possible values: text, ascii, json, dot, svg, html]";

const INPUT_TWICE: &str = "the standard input, `-`, cannot be two of the files";

// Whether a word is there, and names no format.
fn is_no_format(word: Option<&str>) -> bool
    ensures { result ≡ line.is_unknown line.format_named (option_map (λ w. w.now) word.entry) }
{
    match word {
        Some(word) => format_named(word).is_none(),
        None => false,
    }
}

// Whether a word is there, and names no drawing.
fn is_no_drawing(word: Option<&str>) -> bool
    ensures { result ≡ line.is_unknown line.drawing_named (option_map (λ w. w.now) word.entry) }
{
    match word {
        Some(word) => drawing_named(word).is_none(),
        None => false,
    }
}

// Whether a word is there, and doesn't say when colours are written.
fn is_no_colour(word: Option<&str>) -> bool
    ensures { result ≡ line.is_unknown line.colour_named (option_map (λ w. w.now) word.entry) }
{
    match word {
        Some(word) => colour_named(word).is_none(),
        None => false,
    }
}

// Whether the word is `-`.
fn is_input(word: Option<&str>) -> bool
    ensures { result ≡ line.is_input (option_map (λ w. w.now) word.entry) }
{
    match word {
        Some(word) => word == "-",
        None => false,
    }
}

// Whether two of three are so.
fn are_two(a: bool, b: bool, c: bool) -> bool
    ensures { result ≡ line.are_two a b c }
{
    (a && b) || ((a || b) && c)
}

// Whether both words are `-`.
fn are_inputs(domain: Option<&str>, problem: Option<&str>) -> bool
    ensures { result ≡ (line.is_input (option_map (λ w. w.now) domain.entry) && line.is_input (option_map (λ w. w.now) problem.entry)) }
{
    is_input(domain) && is_input(problem)
}
