//! The run of a command line.
ghost use Rattle.std.specs.Prelude.{◌≡◌, ◌≤◌, ◌⊎◌, ℕ, List, [], ◌∷◌, None, Some, true, IfOk, IfErr, OnOk};
ghost use Rattle.std.specs.Io.KnownBytes.{Appends};
ghost use Rattle.htn_command.specs.Help.{AreMistaken};
ghost use Rattle.htn_review.specs.Checking as spec;
ghost use Rattle.htn_run.specs.Reading as reading;
ghost use Rattle.htn_review.specs.Checking.{MayColour};
ghost use Rattle.htn_run.specs.Reading.{files_of, name_of};
ghost use Rattle.htn_run.specs.Refusals.{EndsRefusal, EndsText};
ghost use Rattle.htn_run.specs.Reporting.{AddsReport, StopsReport};
ghost use Rattle.htn_run.specs.Ends.{GetsAfter, HasFault, IsCutShort, LacksFile, NothingIsAsked, PrintsAnswer, PrintsBeside, PrintsText, ReadsInOrder, ShowsProgress, TellsFault, TellsFile, TellsOutput, TellsWant};
ghost use Rattle.htn_run.specs.Files.{MayFail, MayGive, Notes, NotesBeginning};
ghost use Rattle.htn_run.specs.Requests.{AddsAnswer, LacksText, ShowsFor, names_of};
ghost use Rattle.htn_run.specs.Stops.{CutsShort, IsUnread, Stops};

use crate::clock::Watching;
use crate::explain_files::explain_files;
use crate::line::Line;
use crate::plan_files::plan_files;
use crate::reply::Reply;
use crate::source::{ReadFault, Source};
use crate::stop::{Stop, Text};
use crate::tree_files::tree_files;
use check_report::{Input, Options};
use clap::Error;
use htn_command::{Colour, Refusal, Request, parse};
use htn_plan::{Out, put_all};
use htn_review::{Look, RunFault, run_check, run_verify};
use plan_report::ReportStyle;
use std::alloc::Global;
use std::fmt::Write;
use std::sync::Wait;
use std::thread::Threads;
use std::time::Clock;

/// Carries out the request of the words, of which the first is the program's name, and returns the status of the
/// program.
///
/// | Status | When | On `err` |
/// |---|---|---|
/// | 0 | a plan, or `valid`, or a report without an error, or help or the version, which was asked for | nothing |
/// | 1 | `none`, `unsolvable`, or `invalid: ` and why, or a report with a warning that counts | nothing; of a tree without a picture the verdict |
/// | 2 | the words are refused | the text of `clap` |
/// | 3 | a text is refused | one line: which text, the fault and its place; after a report nothing; of a tree the report |
/// | 4 | memory or a thread was refused | one line |
/// | 5 | a file can't be read, or the output can't be written | one line |
/// | 6 | the time for a plan is over | nothing |
///
/// Where a plan is asked for with `--progress`, the lines that report the progress of the search are on `err` before
/// that, and their claims about the task are true. The files are read in the order of the words. Nothing is written to
/// `out` before the answer is known. A write to `err` that fails changes no status. The picture of a plan has the
/// status of its verdict. The answer is that for the contents of the files as far as the source's contract determines
/// these. No clause determines the texts of `clap`.
pub fn run_words<S: Source, O: Out, E: Out, R: Threads + Wait + Clock + Sync>(
    rt: &R,
    alloc: Global,
    words: &[String],
    files: &mut S,
    out: &mut O,
    err: &mut E,
) -> u8
    ensures status { result ≤ 6 }
    ensures found { result ≡ 0 → PrintsAnswer 0 words.now (S.files files.old) (O.contents out.old) (O.contents out.new)
        ⊎ PrintsText words.now (O.contents out.old) (O.contents out.new) }
    ensures none { result ≡ 1 → PrintsBeside 1 words.now (S.files files.old) (O.contents out.old) (O.contents out.new)
        (GetsAfter E.contents E.has_failed words.now (S.files files.old) err.old err.new) (ShowsProgress E.contents E.has_failed words.now (S.files files.old) err.old err.new) }
    ensures works { result ≤ 1 → O.has_failed out.new ≡ O.has_failed out.old }
    ensures quiet { result ≡ 0 → ShowsProgress E.contents E.has_failed words.now (S.files files.old) err.old err.new }
    ensures refused { result ≡ 2 → NothingIsAsked words.now }
    ensures mistaken { result ≡ 2 → AreMistaken words.now }
    ensures faulty { result ≡ 3 → HasFault words.now (S.files files.old) }
    ensures kept { 2 ≤ result → result ≤ 4 → (out.new ≡ out.old)
        ⊎ (PrintsAnswer 3 words.now (S.files files.old) (O.contents out.old) (O.contents out.new) × (O.has_failed out.new ≡ O.has_failed out.old) × (result ≡ 3)) }
    ensures failed { result ≡ 5 → (LacksFile words.now (S.files files.old) × (out.new ≡ out.old))
        ⊎ (IsCutShort words.now (S.files files.old) (O.contents out.old) (O.contents out.new) × (O.has_failed out.new ≡ true)) }
    ensures reads { ReadsInOrder words.now (S.reads files.old) (S.reads files.new) }
    ensures fault_line { result ≡ 3 → (TellsFault words.now (S.files files.old) (GetsAfter E.contents E.has_failed words.now (S.files files.old) err.old err.new) × (out.new ≡ out.old))
        ⊎ PrintsBeside 3 words.now (S.files files.old) (O.contents out.old) (O.contents out.new)
        (GetsAfter E.contents E.has_failed words.now (S.files files.old) err.old err.new) (ShowsProgress E.contents E.has_failed words.now (S.files files.old) err.old err.new) }
    ensures want_line { result ≡ 4 → TellsWant words.now (GetsAfter E.contents E.has_failed words.now (S.files files.old) err.old err.new) }
    ensures file_line { result ≡ 5 → (TellsFile words.now (S.files files.old) (GetsAfter E.contents E.has_failed words.now (S.files files.old) err.old err.new) × (out.new ≡ out.old))
        ⊎ (TellsOutput (GetsAfter E.contents E.has_failed words.now (S.files files.old) err.old err.new) × (O.has_failed out.new ≡ true)) }
    ensures unknown { result ≡ 6 → PrintsBeside 6 words.now (S.files files.old) (O.contents out.old) (O.contents out.new)
        (GetsAfter E.contents E.has_failed words.now (S.files files.old) err.old err.new) (ShowsProgress E.contents E.has_failed words.now (S.files files.old) err.old err.new)
        × (O.has_failed out.new ≡ O.has_failed out.old) }
{
    match parse(alloc, words) {
        Ok(request) => match run_request(rt, alloc, request, files, out, err) {
            Ok(reply) => reply.conclude(err),
            Err(stop) => stop.tell(err),
        },
        Err(refusal) => refuse(alloc, refusal, out, err),
    }
}

// Shows help or the version, or says why the words are refused, and answers the status.
fn refuse<O: Out, E: Out>(alloc: Global, refusal: Refusal, out: &mut O, err: &mut E) -> u8
    ensures { EndsRefusal O.contents O.has_failed E.contents E.has_failed refusal out.old out.new err.old err.new result }
{
    match refusal {
        Refusal::Help(help) => show_text(alloc, &help, out, err),
        Refusal::Version(version) => show_text(alloc, &version, out, err),
        Refusal::Words(error) => {
            let _refused = write!(Line::new(err), "{error}");
            2
        }
        Refusal::OutOfMemory => Stop::Run(RunFault::OutOfMemory).tell(err),
    }
}

// Writes the text of help, or of the version, and answers the status.
fn show_text<O: Out, E: Out>(alloc: Global, shown: &Error, out: &mut O, err: &mut E) -> u8
    ensures { EndsText O.contents O.has_failed E.contents E.has_failed out.old out.new err.old err.new result }
{
    match write_text(alloc, shown, out) {
        Ok(()) => 0,
        Err(fault) => Stop::Run(fault).tell(err),
    }
}

// Writes the text of help, or of the version.
fn write_text<O: Out>(alloc: Global, shown: &Error, out: &mut O) -> Result<(), RunFault>
    ensures added { OnOk result ((text : List ℕ) × Appends (O.contents out.old) (O.contents out.new) text) }
    ensures works { OnOk result (O.has_failed out.new ≡ O.has_failed out.old) }
    ensures stopped { IfErr result (CutsShort O.contents O.has_failed out.old out.new) }
{
    let text = shown.to_string(alloc)?;
    put_all(out, text.as_bytes())?;
    Ok(())
}

// Reads the files of a request, and answers it.
fn run_request<S: Source, O: Out, E: Out, R: Threads + Wait + Clock + Sync>(
    rt: &R,
    alloc: Global,
    request: Request<'_>,
    files: &mut S,
    out: &mut O,
    err: &mut E,
) -> Result<Reply, Stop>
    ensures answered { IfOk result (λ reply. AddsAnswer (S.files files.old) (O.contents out.old) (O.contents out.new) reply request.entry) }
    ensures works { OnOk result (O.has_failed out.new ≡ O.has_failed out.old) }
    ensures stopped { IfErr result (Stops O.contents O.has_failed (S.files files.old) request.entry out.old out.new) }
    ensures reads { NotesBeginning (S.reads files.old) (S.reads files.new) (names_of request.entry) }
    ensures shows { ShowsFor E.contents E.has_failed (S.files files.old) request.entry err.old err.new }
{
    match request {
        Request::Plan {
            domain,
            problem,
            bounds,
            seconds,
            has_progress,
        } => {
            let watching = Watching {
                seconds,
                has_progress,
            };
            plan_files(
                rt, alloc, domain, problem, bounds, watching, files, out, err,
            )
        }
        Request::Verify {
            domain,
            problem,
            plan,
        } => verify_files(alloc, domain, problem, plan, files, out),
        Request::Check {
            domain,
            problem,
            format,
            limit,
            is_strict,
            colour,
        } => {
            let options = Options {
                format,
                limit: limit as usize,
                is_strict,
                colour: has_colour(colour, out.takes_colour()),
            };
            check_files(alloc, domain, problem, options, files, out)
        }
        Request::Explain {
            domain,
            problem,
            plan,
            format,
            has_states,
            colour,
        } => {
            let style = ReportStyle {
                format,
                has_states,
                colour: has_colour(colour, out.takes_colour()),
            };
            explain_files(alloc, domain, problem, plan, style, files, out)
        }
        Request::Tree {
            domain,
            problem,
            plan,
            drawing,
            has_details,
            colour,
        } => {
            let look = Look {
                drawing,
                has_details,
                colour: has_colour(colour, false),
            };
            tree_files(alloc, domain, problem, plan, look, files, out)
        }
    }
}

// Whether a report has colours, for an output that wants them or doesn't.
fn has_colour(colour: Colour, is_wanted: bool) -> bool
    ensures { MayColour colour result }
{
    match colour {
        Colour::Auto => is_wanted,
        Colour::Always => true,
        Colour::Never => false,
    }
}

// The run of a request for a verdict.
fn verify_files<S: Source, O: Out>(
    alloc: Global,
    domain: &str,
    problem: &str,
    plan: &str,
    files: &mut S,
    out: &mut O,
) -> Result<Reply, Stop>
    ensures answered { IfOk result (λ reply. AddsAnswer (S.files files.old) (O.contents out.old) (O.contents out.new) reply (Request.Verify domain.entry problem.entry plan.entry)) }
    ensures works { OnOk result (O.has_failed out.new ≡ O.has_failed out.old) }
    ensures stopped { IfErr result (Stops O.contents O.has_failed (S.files files.old) (Request.Verify domain.entry problem.entry plan.entry) out.old out.new) }
    ensures reads { NotesBeginning (S.reads files.old) (S.reads files.new) (names_of (Request.Verify domain.entry problem.entry plan.entry)) }
{
    let (domain, problem) = read_texts(alloc, files, domain, problem)?;
    let plan = read_file(alloc, files, Text::Plan, plan)?;
    let verdict = run_verify(
        alloc,
        domain.as_slice(),
        problem.as_slice(),
        plan.as_slice(),
        out,
    )?;
    Ok(Reply::Verified(verdict))
}

// The run of a request for a check of a domain, and of a problem if one is named.
fn check_files<S: Source, O: Out>(
    alloc: Global,
    domain: &str,
    problem: Option<&str>,
    options: Options,
    files: &mut S,
    out: &mut O,
) -> Result<Reply, Stop>
    ensures answered { IfOk result (AddsReport (S.files files.old) (O.contents out.old) (O.contents out.new) domain.entry.now (name_of problem.entry) options) }
    ensures works { OnOk result (O.has_failed out.new ≡ O.has_failed out.old) }
    ensures stopped { IfErr result (StopsReport O.contents O.has_failed (S.files files.old) domain.entry.now (name_of problem.entry) options out.old out.new) }
    ensures reads { NotesBeginning (S.reads files.old) (S.reads files.new) (files_of domain.entry.now (name_of problem.entry)) }
{
    match problem {
        Some(problem) => check_both(alloc, domain, problem, options, files, out),
        None => check_alone(alloc, domain, options, files, out),
    }
}

// The run of a request for a check of a domain alone.
fn check_alone<S: Source, O: Out>(
    alloc: Global,
    domain: &str,
    options: Options,
    files: &mut S,
    out: &mut O,
) -> Result<Reply, Stop>
    ensures answered { IfOk result (AddsReport (S.files files.old) (O.contents out.old) (O.contents out.new) domain.entry.now None options) }
    ensures works { OnOk result (O.has_failed out.new ≡ O.has_failed out.old) }
    ensures stopped { IfErr result (StopsReport O.contents O.has_failed (S.files files.old) domain.entry.now None options out.old out.new) }
    ensures reads { NotesBeginning (S.reads files.old) (S.reads files.new) (files_of domain.entry.now None) }
{
    let text = read_file(alloc, files, Text::Domain, file_of(domain))?;
    let domain = Input {
        name: domain,
        text: text.as_slice(),
    };
    let finding = run_check(alloc, domain, None, options, out)?;
    Ok(Reply::Checked(finding))
}

// The run of a request for a check of a domain and a problem.
fn check_both<S: Source, O: Out>(
    alloc: Global,
    domain: &str,
    problem: &str,
    options: Options,
    files: &mut S,
    out: &mut O,
) -> Result<Reply, Stop>
    ensures answered { IfOk result (AddsReport (S.files files.old) (O.contents out.old) (O.contents out.new) domain.entry.now (Some problem.entry.now) options) }
    ensures works { OnOk result (O.has_failed out.new ≡ O.has_failed out.old) }
    ensures stopped { IfErr result (StopsReport O.contents O.has_failed (S.files files.old) domain.entry.now (Some problem.entry.now) options out.old out.new) }
    ensures reads { NotesBeginning (S.reads files.old) (S.reads files.new) (files_of domain.entry.now (Some problem.entry.now)) }
{
    let (first, second) = read_texts(alloc, files, file_of(domain), file_of(problem))?;
    let domain = Input {
        name: domain,
        text: first.as_slice(),
    };
    let problem = Input {
        name: problem,
        text: second.as_slice(),
    };
    let finding = run_check(alloc, domain, Some(problem), options, out)?;
    Ok(Reply::Checked(finding))
}

// The file of a name: the standard input for `-`.
pub(crate) fn file_of(name: &str) -> &str
    ensures { result.now ≡ reading.file_of name.now }
{
    if name == "-" { "/dev/stdin" } else { name }
}

// The bytes of the files of a domain and a problem.
pub(crate) fn read_texts<S: Source>(
    alloc: Global,
    files: &mut S,
    domain: &str,
    problem: &str,
) -> Result<(Vec<u8>, Vec<u8>), Stop>
    ensures bytes { IfOk result (λ texts. MayGive (S.files files.old domain.now) texts.0.items × MayGive (S.files files.old problem.now) texts.1.items) }
    ensures unread { IfErr result (IsUnread (LacksText (S.files files.old) domain.now problem.now ⊥)) }
    ensures kept { (other : List ℕ) → S.files files.new other ≡ S.files files.old other }
    ensures all { OnOk result (Notes (S.reads files.old) (S.reads files.new) (domain.now ∷ problem.now ∷ [])) }
    ensures reads { NotesBeginning (S.reads files.old) (S.reads files.new) (domain.now ∷ problem.now ∷ []) }
{
    let domain = read_file(alloc, files, Text::Domain, domain)?;
    let problem = read_file(alloc, files, Text::Problem, problem)?;
    Ok((domain, problem))
}

// A file's bytes; `text` says on the standard error which one can't be read.
pub(crate) fn read_file<S: Source>(
    alloc: Global,
    files: &mut S,
    text: Text,
    name: &str,
) -> Result<Vec<u8>, Stop>
    ensures bytes { IfOk result (λ bytes. MayGive (S.files files.old name.now) bytes.items) }
    ensures unread { IfErr result (IsUnread (λ file. (file ≡ text) × MayFail (S.files files.old name.now))) }
    ensures kept { (other : List ℕ) → S.files files.new other ≡ S.files files.old other }
    ensures noted { Notes (S.reads files.old) (S.reads files.new) (name.now ∷ []) }
{
    match files.read(alloc, name) {
        Ok(bytes) => Ok(bytes),
        Err(ReadFault::Unreadable) => Err(Stop::Unreadable(text)),
        Err(ReadFault::OutOfMemory) => Err(Stop::Run(RunFault::OutOfMemory)),
    }
}
