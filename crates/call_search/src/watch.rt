//! The watch of a search that looks for a word by calls beside it.
ghost use Rattle.std.specs.Prelude.{◌≡◌, ◌≢◌, ℕ, IfErr, IfOk, false, true};
ghost use Rattle.call_search.specs.Right.{IsRight};
ghost use Rattle.htn_walk.specs.Listed.{listing_machine};
ghost use Rattle.word_machine.specs.Answer.{IsEnding};
ghost use Rattle.word_machine.specs.declared.found.Ending.TheVariants.{GivenUp, Stopped};
ghost use Rattle.word_machine.specs.declared.found.SearchFault.TheVariants.{NoThread};

use crate::calls::Calls;
use std::alloc::AllocError;
use word_machine::{Ending, Found, News, SearchFault, Watch};

/// A watch that asks another one, and continues a search by calls beside the search that it watches. Where that has
/// found the word, it stops the search.
#[derive(Drop)]
pub struct CallWatch<'a, 'b, W> {
    calls: &'a mut Calls<'b>,
    /// The watch of the caller.
    watch: &'a mut W,
    /// Whether the watch of the caller stopped the search.
    is_stopped: bool,
}

impl<'a, 'b, W: Watch> CallWatch<'a, 'b, W> {
    /// A watch of a search of the task of a search by calls.
    pub fn new(calls: &'a mut Calls<'b>, watch: &'a mut W) -> CallWatch<'a, 'b, W>
        ensures same_calls { result.calls.now ≡ calls.old }
        ensures same_reference { result.watch.ghost_name ≡ watch.entry.ghost_name }
        ensures same { result.watch.now ≡ watch.old }
        ensures stopped { result.is_stopped ≡ false }
    {
        CallWatch {
            calls,
            watch,
            is_stopped: false,
        }
    }

    /// The ending of the search that was watched, with the word that was found by calls where that stopped it.
    pub fn end(&mut self, ending: Ending) -> Result<Ending, SearchFault>
        requires right { IsRight self.old.calls.now }
        requires stopped { self.old.is_stopped ≡ true → W.may_stop self.old.watch.now ≡ true }
        requires ending { IsEnding (listing_machine self.old.calls.now.task.now) self.old.calls.now.bound ending }
        ensures same_reference { self.new.watch.ghost_name ≡ self.old.watch.ghost_name }
        ensures same { self.new.watch.now ≡ self.old.watch.now }
        ensures ending { IfOk result (IsEnding (listing_machine self.old.calls.now.task.now) self.old.calls.now.bound) }
        ensures given_up { IfOk result (λ e. (n : ℕ) → e ≡ GivenUp n → ending ≡ GivenUp n) }
        ensures stopped { IfOk result (λ e. (n : ℕ) → e ≡ Stopped n → W.may_stop self.old.watch.now ≡ true) }
        ensures no_thread { IfErr result (λ e. e ≢ NoThread) }
    {
        let Ending::Stopped { none_below } = ending else {
            return Ok(ending);
        };
        if self.is_stopped {
            return Ok(Ending::Stopped { none_below });
        }
        match self.calls.take_word() {
            Some(word) => Ok(Ending::Answer(Found::Word(word))),
            // Memory was refused.
            None => Err(SearchFault::OutOfMemory),
        }
    }
}

impl<W: Watch> Watch for CallWatch<'_, '_, W> {
    ghost use Rattle.std.specs.Prelude.{◌≡◌, ℕ, refl, true};
    ghost use Rattle.std.proofs.Common.{◌∙◌};
    ghost use Rattle.call_search.specs.Right.{IsRight, IsSameSearch};

    ghost may_stop = { λ _. true };

    ghost becomes = { λ v w. (w.watch.ghost_name ≡ v.watch.ghost_name) × W.becomes v.watch.now w.watch.now
        × IsSameSearch v.calls.now w.calls.now
        × ((v.is_stopped ≡ true → W.may_stop v.watch.now ≡ true)
        → w.is_stopped ≡ true → W.may_stop w.watch.now ≡ true) };

    ghost may_hear = { λ w n. IsRight w.calls.now × W.may_hear w.watch.now n };

    fn goes_on(&mut self, news: News) -> bool {
        if !self.watch.goes_on(news) {
            self.is_stopped = true;
            return false;
        }
        match self
            .calls
            .look(news.configurations, news.bound, news.none_below)
        {
            Ok(goes_on) => goes_on,
            Err(AllocError) => false,
        }
    }

    ghost stays = { λ w. (refl, W.stays w.watch.now, (refl, refl, (λ h. h)), λ h. h) };

    ghost joins = { λ u v w a b. (
      b.0 ∙ a.0,
      W.joins u.watch.now v.watch.now w.watch.now a.1 b.1,
      (b.2.0 ∙ a.2.0, b.2.1 ∙ a.2.1, (λ h. b.2.2 (a.2.2 h))),
      λ h. b.3 (a.3 h),
    ) };

    ghost keeps = { λ _ _ _. refl };

    ghost hears = { λ v w n b h. (b.2.2 h.0, W.hears v.watch.now w.watch.now n b.1 h.1) };
}
