//! The watch of a search that reads the clock.
use crate::progress::{Progress, put_end, put_progress};
use htn_plan::{Out, WriteFault};
use htn_review::Watched;
use htn_search::{News, Watch};
use htn_task::Task;
use std::time::{Clock, Duration, Instant};

/// The purposes for which a search is watched.
#[derive(Clone, Copy, Debug)]
pub(crate) struct Watching {
    /// After how many seconds the search is stopped, if it is.
    pub(crate) seconds: Option<u64>,
    /// Whether lines report the progress of the search.
    pub(crate) has_progress: bool,
}

/// A watch that stops a search after some seconds, and writes lines of progress on the error output. A write that is
/// refused there changes nothing, and neither does a clock that can't be read.
#[derive(Drop)]
pub(crate) struct Stopwatch<'a, R, E> {
    rt: &'a R,
    task: &'a Task,
    watching: Watching,
    /// When the search began; None where the clock isn't asked.
    start: Option<Instant>,
    /// When the next line is due, from the start on: the first after a second.
    next: Duration,
    has_written: bool,
    err: &'a mut E,
}

// When a watched search began; None where nothing is to be watched, or the clock can't be read.
fn start_of<R: Clock>(rt: &R, watching: Watching) -> Option<Instant> {
    if watching.seconds.is_none() && !watching.has_progress {
        return None;
    }
    Instant::now(rt).ok()
}

impl<'a, R: Clock, E: Out> Stopwatch<'a, R, E> {
    ghost use Rattle.std.specs.Prelude.{◌≡◌, ℕ, List, true, is_some, ⊤};
    ghost use Rattle.htn_review.specs.Headline.{SaysWatched};
    ghost use Rattle.htn_run.specs.Progress.{IsProgress, Shows};
    ghost use Rattle.htn_search.specs.Answer.{HasNoneBelow};

    /// A watch of a search of the task that begins now.
    pub(crate) fn start(
        rt: &'a R,
        task: &'a Task,
        watching: Watching,
        err: &'a mut E,
    ) -> Stopwatch<'a, R, E>
        ensures same_reference { result.err.ghost_name ≡ err.entry.ghost_name }
        ensures same { result.err.now ≡ err.old }
        ensures task { result.task.now ≡ task.now }
        ensures hears { (n : ℕ) → HasNoneBelow task.now n → HasNoneBelow result.task.now n }
        ensures watching { result.watching ≡ watching }
    {
        Stopwatch {
            rt,
            task,
            watching,
            start: start_of(rt, watching),
            next: Duration::from_secs(1),
            has_written: false,
            err,
        }
    }

    // The time since the start, if the clock is asked and can be read.
    fn elapsed(&self) -> Option<Duration> {
        self.start?.elapsed(self.rt).ok()
    }

    // Whether the time of the search is over.
    fn is_over(&self, elapsed: Duration) -> bool
        ensures { result ≡ true → is_some self.now.watching.seconds ≡ true }
    {
        match self.watching.seconds {
            Some(seconds) => elapsed.as_secs() >= seconds,
            None => false,
        }
    }

    // Whether a line is due.
    fn is_due(&self, elapsed: Duration) -> bool
        ensures { result ≡ true → self.now.watching.has_progress ≡ true }
    {
        self.watching.has_progress && self.next <= elapsed
    }

    // Writes a line. The next is due when a tenth more time has passed.
    fn show(&mut self, elapsed: Duration, news: News)
        requires shown { self.old.watching.has_progress ≡ true }
        requires none { HasNoneBelow self.old.task.now news.none_below }
        ensures same_reference { self.new.err.ghost_name ≡ self.old.err.ghost_name }
        ensures task { self.new.task.now ≡ self.old.task.now }
        ensures watching { self.new.watching ≡ self.old.watching }
        ensures shows { Shows E.contents E.has_failed (IsProgress self.old.task.now) true self.old.err.now self.new.err.now }
    {
        let progress = Progress {
            seconds: elapsed.as_secs(),
            bound: news.bound,
            configurations: news.configurations as u64,
            none_within: news.none_below.checked_sub(1),
        };
        let _refused: Result<(), WriteFault> = put_progress(self.err, progress);
        self.next = elapsed.saturating_add(elapsed / 10);
        self.has_written = true;
    }

    /// Writes the result of the search, if a line was written before.
    pub(crate) fn end(&mut self, watched: Watched)
        requires says { (bound : ℕ) × (text : List ℕ) × SaysWatched self.old.task.now bound ⊤ watched text }
        ensures same_reference { self.new.err.ghost_name ≡ self.old.err.ghost_name }
        ensures shows { Shows E.contents E.has_failed (IsProgress self.old.task.now) self.old.watching.has_progress self.old.err.now self.new.err.now }
    {
        if !self.watching.has_progress || !self.has_written {
            return;
        }
        let Some(elapsed) = self.elapsed() else {
            return;
        };
        let seconds = elapsed.as_secs();
        let _refused: Result<(), WriteFault> = put_end(self.err, seconds, watched);
    }
}

impl<R: Clock, E: Out> Watch for Stopwatch<'_, R, E> {
    ghost use Rattle.std.specs.Prelude.{◌≡◌, ℕ, is_some, refl};
    ghost use Rattle.std.proofs.Common.{ap, sym, subst, ◌∙◌};
    ghost use Rattle.htn_run.specs.Progress.{IsProgress, Shows};
    ghost use Rattle.htn_run.specs.Showing.{shows_none, shows_on};
    ghost use Rattle.htn_search.specs.Answer.{HasNoneBelow};

    ghost may_stop = { λ w. is_some w.watching.seconds };

    ghost becomes = { λ v w. (w.err.ghost_name ≡ v.err.ghost_name) × (w.watching ≡ v.watching) × (w.task.now ≡ v.task.now) × Shows E.contents E.has_failed (IsProgress v.task.now) v.watching.has_progress v.err.now w.err.now };

    ghost may_hear = { λ w n. HasNoneBelow w.task.now n };

    fn goes_on(&mut self, news: News) -> bool {
        let Some(elapsed) = self.elapsed() else {
            return true;
        };
        if self.is_over(elapsed) {
            return false;
        }
        if self.is_due(elapsed) {
            self.show(elapsed, news);
        }
        true
    }

    ghost stays = { λ w. (refl, refl, refl, shows_none E.contents E.has_failed (IsProgress w.task.now) w.watching.has_progress w.err.now) };

    ghost joins = { λ u v w a b. (b.0 ∙ a.0, b.1 ∙ a.1, b.2 ∙ a.2, shows_on E.contents E.has_failed u.task.now v.task.now a.2 u.watching.has_progress v.watching.has_progress (ap (λ x. x.has_progress) a.1) u.err.now v.err.now w.err.now a.3 b.3) };

    ghost keeps = { λ v w b. ap (λ x. is_some x.seconds) b.1 };

    ghost hears = { λ v w n b h. subst (λ t. HasNoneBelow t n) (sym b.2) h };
}
