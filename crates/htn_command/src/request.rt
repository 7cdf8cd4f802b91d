//! The words of the command line, read with `clap`.
ghost use Rattle.std.specs.Prelude.{◌≡◌, ◌≢◌, ℕ, Option, false, Some, IfOk, IfErr, IfSome, IsNone, codes, map, string_bytes};
ghost use Rattle.clap.specs.Words.{app_of, found_of, kind_of, rows_of, rule_of, subcommand_rows_of};
ghost use Rattle.clap.specs.Walk.{one_of};
ghost use Rattle.clap.specs.declared.builder.command.Command.TheViews.{out-Command as fields_of};
ghost use Rattle.htn_command.specs.CommandLine as line;
ghost use Rattle.htn_command.specs.Help.{AreMistaken, HelpIsAsked, IsOfWords, IsPossible, RefusesWords, ShowsHelp, ShowsVersion, VersionIsAsked};
ghost use Rattle.htn_command.specs.Request.{AskNothing, IsAskedBy, IsOf, IsOfNothing};

use crate::choice::{Colour, Drawing, colour_named, drawing_named, flag_named, format_named};
use crate::misuse::Misuse;
use crate::refusal::Refusal;
use clap::builder::ValueParser;
use clap::error::ErrorKind;
use clap::{Arg, ArgAction, ArgMatches, Command, Error, value_parser};
use diagnostics::Format;
use std::alloc::{AllocError, Global};
use word_machine::Bounds;

/// What the words of a command line ask for.
#[derive(Clone, Copy, Debug)]
pub enum Request<'a> {
    /// A plan for the domain and the problem in these files, within these bounds.
    Plan {
        domain: &'a str,
        problem: &'a str,
        bounds: Bounds,
        /// After how many seconds the search is stopped, if it is.
        seconds: Option<u64>,
        /// Whether lines say how the search gets on.
        has_progress: bool,
    },
    /// The verdict on the plan in the last of these files, for the domain and the problem in the others.
    Verify {
        domain: &'a str,
        problem: &'a str,
        plan: &'a str,
    },
    /// What is wrong with the domain, and with the problem if there is one. A file's name `-` is the standard input.
    Check {
        domain: &'a str,
        problem: Option<&'a str>,
        format: Format,
        /// How many diagnostics are shown at most; 0 is all.
        limit: u64,
        is_strict: bool,
        colour: Colour,
    },
    /// Why the plan in the last of these files is valid or not, for the domain and the problem in the others. A file's
    /// name `-` is the standard input.
    Explain {
        domain: &'a str,
        problem: &'a str,
        plan: &'a str,
        format: Format,
        /// Whether what each action changes is shown.
        has_states: bool,
        colour: Colour,
    },
    /// The picture of the plan in the last of these files, for the domain and the problem in the others. A file's name
    /// `-` is the standard input.
    Tree {
        domain: &'a str,
        problem: &'a str,
        plan: &'a str,
        drawing: Drawing,
        /// Whether text shows what a valid plan does not say of its lines.
        has_details: bool,
        colour: Colour,
    },
}

// The version of the program.
const VERSION: &str = "0.1.0";

// The text below the help of the program, and of each of its commands.
const CALLS: &str = "Examples:
  htnplan check domain.hddl problem.hddl
  htnplan plan domain.hddl problem.hddl --nodes 200 > plan.txt
  htnplan verify domain.hddl problem.hddl plan.txt
  htnplan tree domain.hddl problem.hddl plan.txt
  htnplan explain domain.hddl problem.hddl plan.txt

Status: 0 yes (a plan, valid, no error), 1 no (none, unsolvable, invalid), 2 command line, 3 a text is refused,
4 memory or threads, 5 files or output, 6 `plan --seconds` stopped the search.";

const NODES: &str =
    "Nodes of a plan, at most: tasks, actions, precondition steps; after `none` try more";

const PLAN_CALL: &str = "Example:
  htnplan plan domain.hddl problem.hddl --nodes 200 > plan.txt

`none`: no plan has at most N nodes, and a greater N may help. `unsolvable`: there is no plan of any size.
`unknown: none within B`: the time of --seconds is over, and no plan has at most B nodes.

Status: 0 a plan, 1 none or unsolvable, 2 command line, 3 a text is refused, 4 memory or threads,
5 files or output, 6 unknown.";

const VERIFY_CALL: &str = "Examples:
  htnplan verify domain.hddl problem.hddl plan.txt
  htnplan plan domain.hddl problem.hddl | htnplan verify domain.hddl problem.hddl /dev/stdin

After `invalid:` stands the first of these that holds:
  Structure          the lines are no forest below `root`
  NoInstance ID      the line with this ID (or `root`) is nothing that the domain allows
  NotExecutable ID   when its turn comes, a precondition of this action is false
  GoalFails          the goal is false after all actions
  NoArrangement      the actions in this order keep to no order of the tasks and preconditions above them

`htnplan explain` of the same three files says why, with lines of the plan and of the texts.

Status: 0 valid, 1 invalid, 2 command line, 3 a text is refused, 4 memory, 5 files or output.";

const CHECK_CALL: &str = "Examples:
  htnplan check domain.hddl
  htnplan check domain.hddl problem.hddl --strict

`short` prints FILE:LINE:COLUMN: error: MESSAGE [Code], which editors read. What each code means: docs/FAULTS.md.
One of the files may be `-`, the standard input.

Status: 0 no error, 1 a warning with --strict, 2 command line, 3 a text is refused, 4 memory, 5 files or output.";

const EXPLAIN_CALL: &str = "Examples:
  htnplan explain domain.hddl problem.hddl plan.txt
  htnplan explain domain.hddl problem.hddl plan.txt --states

The first line has the verdict of `verify`. What follows says why, with lines of the plan and of the texts. `--states`
shows what is true at the start, and what each action makes true and false. One of the files may be `-`, the standard
input.

Status: 0 valid, 1 invalid, 2 command line, 3 a text is refused, 4 memory, 5 files or output.";

const TREE_CALL: &str = "Examples:
  htnplan tree domain.hddl problem.hddl plan.txt
  htnplan plan domain.hddl problem.hddl | htnplan tree domain.hddl problem.hddl -
  htnplan tree domain.hddl problem.hddl plan.txt --details
  htnplan tree domain.hddl problem.hddl plan.txt --format html > plan.html
  htnplan tree domain.hddl problem.hddl plan.txt --format svg > plan.svg
  htnplan tree domain.hddl problem.hddl plan.txt --format dot | dot -Tpng > plan.png

The first line has the verdict of `verify`, and the line of the plan that it names is marked. The numbers left of the
tree are the places of the actions in the plan. Lines that are no forest (`invalid: Structure`) have no picture. Of a
valid plan `--details` shows in text what the plan does not say: the values of the methods' parameters, and after how
many actions each precondition is tested. One of the files may be `-`, the standard input.

Status: 0 valid, 1 invalid, 2 command line, 3 a text is refused, 4 memory, 5 files or output.";

/// Reads the words, of which the first is the program's name. Words that are refused ask for nothing. Help and the
/// version are shown only where a word asks for them, and words whose one fault is that are not refused.
pub fn parse<'a>(alloc: Global, words: &'a [String]) -> Result<Request<'a>, Refusal>
    ensures asked { IfOk result (IsAskedBy (map string_bytes words.now)) }
    ensures refused { IfErr result (λ refusal. IsOfWords refusal → AskNothing (map string_bytes words.now)) }
    ensures help { IfErr result (λ refusal. ShowsHelp refusal → HelpIsAsked words.now) }
    ensures version { IfErr result (λ refusal. ShowsVersion refusal → VersionIsAsked words.now) }
    ensures mistaken { IfErr result (λ refusal. RefusesWords refusal → AreMistaken words.now) }
{
    match read(alloc, words) {
        Ok(request) => Ok(request),
        Err(error) => Err(Refusal::of(error, words)),
    }
}

// The request of the words, or `clap`'s error.
fn read<'a>(alloc: Global, words: &'a [String]) -> Result<Request<'a>, Error>
    ensures asked { IfOk result (IsAskedBy (map string_bytes words.now)) }
    ensures refused { IfErr result (λ e. kind_of e ≢ ErrorKind.OutOfMemory → AskNothing (map string_bytes words.now)) }
    ensures help { IfErr result (λ e. kind_of e ≡ ErrorKind.DisplayHelp → line.HelpIsDue (map string_bytes words.now)) }
    ensures version { IfErr result (λ e. kind_of e ≡ ErrorKind.DisplayVersion → line.VersionIsDue (map string_bytes words.now)) }
    ensures kind { IfErr result (λ e. kind_of e ≢ ErrorKind.OutOfMemory → IsPossible (map string_bytes words.now) (kind_of e)) }
{
    let command = command(alloc)?;
    let matches = command.try_get_matches_from(words)?;
    if let Some(misuse) = Misuse::of(&matches) {
        return Err(misuse.error(alloc)?);
    }
    match read_words(&matches) {
        Some(request) => Ok(request),
        None => Err(unread(alloc)?),
    }
}

// The command line that `clap` reads.
pub(crate) fn command<'a>(alloc: Global) -> Result<Command<'a>, AllocError>
    ensures { IfOk result (λ c. app_of c ≡ line.htnplan) }
{
    let program = Command::new(alloc, "htnplan")
        .version(VERSION)
        .about(
            "Plans hierarchical tasks (HDDL), verifies plans, and says what is wrong; the program is proved",
        )
        .after_help(CALLS)
        .subcommand_required(true)
        .arg_required_else_help(true);
    program
        .subcommand(plan(alloc)?)?
        .subcommand(verify(alloc)?)?
        .subcommand(check(alloc)?)?
        .subcommand(explain(alloc)?)?
        .subcommand(tree(alloc)?)
}

// The command `plan`.
fn plan<'a>(alloc: Global) -> Result<Command<'a>, AllocError>
    ensures { IfOk result (λ c. (app_of c ≡ line.plan) × ((fields_of c).has_globals ≡ false)) }
{
    Command::new(alloc, "plan")
        .about("Prints the plan with the fewest nodes, or `none` (none so small), or `unsolvable`")
        .after_help(PLAN_CALL)
        .arg(file(alloc, "DOMAIN", "The file of the domain, in HDDL"))?
        .arg(file(alloc, "PROBLEM", "The file of the problem, in HDDL"))?
        .arg(number(alloc, "nodes", "100", value_parser!(u64).range(0..=10_000)).help(NODES))?
        .arg(number(alloc, "workers", "1", value_parser!(u64).range(1..=64)).help(
            "Threads that search; changes no answer",
        ))?
        .arg(number(
            alloc,
            "piece",
            "64",
            value_parser!(u64).range(1..=1_000_000),
        )
        .help("For experiments: how work is cut; changes no answer"))?
        .arg(flag(alloc, "progress").help(
            "Lines on standard error that say how the search gets on",
        ))?
        .arg(number_or_none(alloc, "seconds", value_parser!(u64).range(1..=31_536_000)).help(
            "Stops the search after about N seconds",
        ))
}

// The command `verify`.
fn verify<'a>(alloc: Global) -> Result<Command<'a>, AllocError>
    ensures { IfOk result (λ c. (app_of c ≡ line.verify) × ((fields_of c).has_globals ≡ false)) }
{
    Command::new(alloc, "verify")
        .about("Prints `valid`, or `invalid:` and the first cause")
        .after_help(VERIFY_CALL)
        .arg(file(alloc, "DOMAIN", "The file of the domain, in HDDL"))?
        .arg(file(alloc, "PROBLEM", "The file of the problem, in HDDL"))?
        .arg(file(alloc, "PLAN", "The file of the plan, as `plan` prints it"))
}

// The command `check`.
fn check<'a>(alloc: Global) -> Result<Command<'a>, AllocError>
    ensures { IfOk result (λ c. (app_of c ≡ line.check) × ((fields_of c).has_globals ≡ false)) }
{
    Command::new(alloc, "check")
        .about(
            "Says what is wrong with a domain and a problem, with lines, and warns of what is never used",
        )
        .after_help(CHECK_CALL)
        .arg(file(alloc, "DOMAIN", "The file of the domain, in HDDL"))?
        .arg(file_or_none(alloc, "PROBLEM", "The file of the problem"))?
        .arg(choice(alloc, "format", "FORMAT", "text").help(
            "How it is printed: text, short, json",
        ))?
        .arg(number(
            alloc,
            "limit",
            "20",
            value_parser!(u64).range(0..=1_000_000),
        )
        .help("Diagnostics that text shows; 0 is all"))?
        .arg(flag(alloc, "strict").help("A warning is status 1"))?
        .arg(choice(alloc, "color", "WHEN", "auto").help("Colours: auto, always, never"))
}

// The command `explain`.
fn explain<'a>(alloc: Global) -> Result<Command<'a>, AllocError>
    ensures { IfOk result (λ c. (app_of c ≡ line.explain) × ((fields_of c).has_globals ≡ false)) }
{
    Command::new(alloc, "explain")
        .about("Says why a plan is invalid")
        .after_help(EXPLAIN_CALL)
        .arg(file(alloc, "DOMAIN", "The file of the domain, in HDDL"))?
        .arg(file(alloc, "PROBLEM", "The file of the problem, in HDDL"))?
        .arg(file(alloc, "PLAN", "The file of the plan, as `plan` prints it"))?
        .arg(choice(alloc, "format", "FORMAT", "text").help(
            "How it is printed: text, short, json",
        ))?
        .arg(flag(alloc, "states").help("What each action makes true and false"))?
        .arg(choice(alloc, "color", "WHEN", "auto").help("Colours: auto, always, never"))
}

// The command `tree`.
fn tree<'a>(alloc: Global) -> Result<Command<'a>, AllocError>
    ensures { IfOk result (λ c. (app_of c ≡ line.tree) × ((fields_of c).has_globals ≡ false)) }
{
    Command::new(alloc, "tree")
        .about("Draws the decomposition tree of a plan: text, ascii, json, dot, svg, html")
        .after_help(TREE_CALL)
        .arg(file(alloc, "DOMAIN", "The file of the domain, in HDDL"))?
        .arg(file(alloc, "PROBLEM", "The file of the problem, in HDDL"))?
        .arg(file(alloc, "PLAN", "The file of the plan, as `plan` prints it"))?
        .arg(choice(alloc, "format", "FORMAT", "text").help(
            "How it is drawn: text, ascii, json, dot, svg, html",
        ))?
        .arg(flag(alloc, "details").help(
            "Values of the methods' parameters, and where preconditions are tested",
        ))?
        .arg(choice(alloc, "color", "WHEN", "auto").help(
            "Colours of what is wrong with a text: auto, always, never",
        ))
}

// An option with one of some words.
fn choice<'a>(alloc: Global, id: &'a str, value_name: &'a str, default: &'a str) -> Arg<'a>
    ensures rule { rule_of result ≡ line.choice id.now default.now }
    ensures local { result.global ≡ false }
{
    Arg::new(alloc, id)
        .long(id)
        .value_name(value_name)
        .default_value(default)
}

// An option without a value.
fn flag<'a>(alloc: Global, id: &'a str) -> Arg<'a>
    ensures rule { rule_of result ≡ line.flag id.now }
    ensures local { result.global ≡ false }
{
    Arg::new(alloc, id).long(id).action(ArgAction::SetTrue)
}

// A word that may stand: the name of a file.
fn file_or_none<'a>(alloc: Global, id: &'a str, help: &'a str) -> Arg<'a>
    ensures rule { rule_of result ≡ line.file_or_none id.now }
    ensures local { result.global ≡ false }
{
    Arg::new(alloc, id).help(help)
}

// A word that has to stand: the name of a file.
fn file<'a>(alloc: Global, id: &'a str, help: &'a str) -> Arg<'a>
    ensures rule { rule_of result ≡ line.file id.now }
    ensures local { result.global ≡ false }
{
    Arg::new(alloc, id).required(true).help(help)
}

// An option with a number.
fn number<'a>(alloc: Global, id: &'a str, default: &'a str, parser: ValueParser<'a>) -> Arg<'a>
    ensures rule { rule_of result ≡ record (line.number id.now default.now 0 0) { parser = Some parser.entry } }
    ensures local { result.global ≡ false }
{
    Arg::new(alloc, id)
        .long(id)
        .value_name("N")
        .default_value(default)
        .value_parser(parser)
}

// An option with a number, that may be left out.
fn number_or_none<'a>(alloc: Global, id: &'a str, parser: ValueParser<'a>) -> Arg<'a>
    ensures rule { rule_of result ≡ record (line.number_or_none id.now 0 0) { parser = Some parser.entry } }
    ensures local { result.global ≡ false }
{
    Arg::new(alloc, id)
        .long(id)
        .value_name("N")
        .value_parser(parser)
}

// The number of an option that may be left out; None where its text is no number of 64 bits.
fn number_if_any(matches: &ArgMatches<'_>, id: &str) -> Option<Option<u64>>
    ensures some { IfSome result (line.IsNumberIfAny (one_of id.now (rows_of (found_of matches.now)))) }
    ensures none { IsNone result → (number : Option ℕ) → line.IsNumberIfAny (one_of id.now (rows_of (found_of matches.now))) number → ⊥ }
{
    let Some(_text) = matches.get_str(id) else {
        return Some(None);
    };
    let number = matches.get_one::<u64>(id)?;
    Some(Some(number))
}

// None where the matches do not have a word or a number of a command, which `clap` doesn't let pass.
fn read_words<'a>(matches: &ArgMatches<'a>) -> Option<Request<'a>>
    ensures some { IfSome result (IsOf (subcommand_rows_of matches.now)) }
    ensures none { IsNone result → IsOfNothing (subcommand_rows_of matches.now) }
{
    if let Some(plan) = matches.subcommand_matches("plan") {
        return read_plan_words(plan);
    }
    if let Some(verify) = matches.subcommand_matches("verify") {
        return read_verify_words(verify);
    }
    if let Some(check) = matches.subcommand_matches("check") {
        return read_check_words(check);
    }
    if let Some(explain) = matches.subcommand_matches("explain") {
        return read_explain_words(explain);
    }
    read_tree_words(matches.subcommand_matches("tree")?)
}

// The request of what `plan` was given.
fn read_plan_words<'a>(plan: &ArgMatches<'a>) -> Option<Request<'a>>
    ensures some { IfSome result (IsOf (Some (codes "plan", rows_of (found_of plan.now)))) }
    ensures none { IsNone result → IsOfNothing (Some (codes "plan", rows_of (found_of plan.now))) }
{
    let nodes = plan.get_one::<u64>("nodes")?;
    let workers = plan.get_one::<u64>("workers")?;
    let piece = plan.get_one::<u64>("piece")?;
    let domain = plan.get_str("DOMAIN")?;
    let problem = plan.get_str("PROBLEM")?;
    let bounds = Bounds::new(nodes, workers, piece)?;
    let seconds = number_if_any(plan, "seconds")?;
    let has_progress = flag_named(plan.get_str("progress")?)?;
    Some(Request::Plan {
        domain,
        problem,
        bounds,
        seconds,
        has_progress,
    })
}

// The request of what `verify` was given.
fn read_verify_words<'a>(verify: &ArgMatches<'a>) -> Option<Request<'a>>
    ensures some { IfSome result (IsOf (Some (codes "verify", rows_of (found_of verify.now)))) }
    ensures none { IsNone result → IsOfNothing (Some (codes "verify", rows_of (found_of verify.now))) }
{
    let domain = verify.get_str("DOMAIN")?;
    let problem = verify.get_str("PROBLEM")?;
    let plan = verify.get_str("PLAN")?;
    Some(Request::Verify {
        domain,
        problem,
        plan,
    })
}

// The request of what `check` was given.
fn read_check_words<'a>(check: &ArgMatches<'a>) -> Option<Request<'a>>
    ensures some { IfSome result (IsOf (Some (codes "check", rows_of (found_of check.now)))) }
    ensures none { IsNone result → IsOfNothing (Some (codes "check", rows_of (found_of check.now))) }
{
    let domain = check.get_str("DOMAIN")?;
    let problem = check.get_str("PROBLEM");
    let format = format_named(check.get_str("format")?)?;
    let limit = check.get_one::<u64>("limit")?;
    let is_strict = flag_named(check.get_str("strict")?)?;
    let colour = colour_named(check.get_str("color")?)?;
    Some(Request::Check {
        domain,
        problem,
        format,
        limit,
        is_strict,
        colour,
    })
}

// The request of what `explain` was given.
fn read_explain_words<'a>(explain: &ArgMatches<'a>) -> Option<Request<'a>>
    ensures some { IfSome result (IsOf (Some (codes "explain", rows_of (found_of explain.now)))) }
    ensures none { IsNone result → IsOfNothing (Some (codes "explain", rows_of (found_of explain.now))) }
{
    let domain = explain.get_str("DOMAIN")?;
    let problem = explain.get_str("PROBLEM")?;
    let plan = explain.get_str("PLAN")?;
    let format = format_named(explain.get_str("format")?)?;
    let has_states = flag_named(explain.get_str("states")?)?;
    let colour = colour_named(explain.get_str("color")?)?;
    Some(Request::Explain {
        domain,
        problem,
        plan,
        format,
        has_states,
        colour,
    })
}

// The request of what `tree` was given.
fn read_tree_words<'a>(tree: &ArgMatches<'a>) -> Option<Request<'a>>
    ensures some { IfSome result (IsOf (Some (codes "tree", rows_of (found_of tree.now)))) }
    ensures none { IsNone result → IsOfNothing (Some (codes "tree", rows_of (found_of tree.now))) }
{
    let domain = tree.get_str("DOMAIN")?;
    let problem = tree.get_str("PROBLEM")?;
    let plan = tree.get_str("PLAN")?;
    let drawing = drawing_named(tree.get_str("format")?)?;
    let has_details = flag_named(tree.get_str("details")?)?;
    let colour = colour_named(tree.get_str("color")?)?;
    Some(Request::Tree {
        domain,
        problem,
        plan,
        drawing,
        has_details,
        colour,
    })
}

// The error where a request can't be read off matches.
fn unread(alloc: Global) -> Result<Error, AllocError>
    ensures { IfOk result (λ e. kind_of e ≡ ErrorKind.ValueValidation) }
{
    let mut command = command(alloc)?;
    command.error(ErrorKind::ValueValidation, "a number is out of range")
}
