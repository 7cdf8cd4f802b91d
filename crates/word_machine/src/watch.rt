//! Watches: they are informed of the progress of a search, and may stop it.
ghost use Rattle.std.specs.Prelude.{◌≡◌, ℕ, Bool, true, false, refl};

/// The progress of a search.
#[derive(Clone, Copy, Debug)]
pub struct News {
    /// The bound of the search.
    pub bound: u64,
    /// How many configurations its list has.
    pub configurations: usize,
    /// No word finishes in fewer steps than these.
    pub none_below: u64,
}

/// A watch is asked before each level of a search, before each block of a level but its first, and every 256
/// configurations of a dive, whether the search goes on. It is asked in the thread that waits for the workers.
pub trait Watch {
    // Whether it may stop a search.
    ghost may_stop: { Self → Bool };

    // The second watch is one that the first may be after it was asked.
    ghost becomes: { Self → Self → Type 0 };

    // It may be given this number of steps below which no word finishes.
    ghost may_hear: { Self → ℕ → Type 0 };

    /// Whether a search with this progress goes on.
    fn goes_on(&mut self, news: News) -> bool
        requires hears { may_hear self.old news.none_below }
        ensures stops { result ≡ false → may_stop self.old ≡ true }
        ensures becomes { becomes self.old self.new };

    // A watch that isn't asked stays as it is.
    ghost stays: { (w : Self) → becomes w w };

    // A watch may be asked again and again.
    ghost joins: { (u v w : Self) → becomes u v → becomes v w → becomes u w };

    // To be asked changes nothing of what it may do, and of what it may be given.
    ghost keeps: { (v w : Self) → becomes v w → may_stop w ≡ may_stop v };

    ghost hears: { (v w : Self) (n : ℕ) → becomes v w → may_hear v n → may_hear w n };
}

/// Whether a search goes on. Its watch is asked only if that is due.
pub(crate) fn goes_on_if<W: Watch>(watch: &mut W, is_due: bool, news: News) -> bool
    requires hears { W.may_hear watch.old news.none_below }
    ensures stops { result ≡ false → W.may_stop watch.old ≡ true }
    ensures becomes { W.becomes watch.old watch.new }
{
    !is_due || watch.goes_on(news)
}

/// The watch that stops no search.
#[derive(Clone, Copy, Debug)]
pub struct NoWatch;

impl Watch for NoWatch {
    ghost may_stop = { λ _. false };

    ghost becomes = { λ _ _. Unit {0} };

    ghost may_hear = { λ _ _. Unit {0} };

    fn goes_on(&mut self, _news: News) -> bool {
        true
    }

    ghost stays = { λ _. tt };

    ghost joins = { λ _ _ _ _ _. tt };

    ghost keeps = { λ _ _ _. refl };

    ghost hears = { λ _ _ _ _ _. tt };
}
