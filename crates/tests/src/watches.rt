//! Searches that are watched, and stopped.
use crate::counter::Counter;
use crate::search_answers::{expect_answers, number_at};
use std::alloc::AllocError;
use std::sync::Wait;
use std::thread::Threads;
use word_machine::{Bounds, Effort, Machine, News, NoGate, Watch, find_word_watched};

// Counts how often it is asked, and stops the search once it was asked more often than `patience`.
#[derive(Drop)]
struct Counted {
    patience: u64,
    asked: u64,
    last: News,
}

impl Counted {
    fn new(patience: u64) -> Counted {
        Counted {
            patience,
            asked: 0,
            last: News {
                bound: 0,
                configurations: 0,
                none_below: 0,
            },
        }
    }
}

impl Watch for Counted {
    ghost use Rattle.std.specs.Prelude.{true, refl};

    ghost may_stop = { λ _. true };

    ghost becomes = { λ _ _. Unit {0} };

    ghost may_hear = { λ _ _. Unit {0} };

    fn goes_on(&mut self, news: News) -> bool {
        self.asked = self.asked.saturating_add(1);
        self.last = news;
        self.asked <= self.patience
    }

    ghost stays = { λ _. tt };

    ghost joins = { λ _ _ _ _ _. tt };

    ghost keeps = { λ _ _ _. refl };

    ghost hears = { λ _ _ _ _ _. tt };
}

fn push_news(search: &str, watch: &Counted, out: &mut String) -> Result<(), AllocError> {
    let (asked, last) = (watch.asked, watch.last);
    match search {
        "watched" => Ok(()),
        "asked" => write!(out, ", asked {asked}"),
        "news" => write!(
            out,
            ", asked {asked}, bound {}, {} at least",
            last.bound, last.none_below
        ),
        _ => out.push_str(", which search?"),
    }
}

/// How a search with a watch ends; and, as is asked, what the watch has counted and heard. The last numbers are the
/// first bound, and how often the watch lets the search continue.
pub fn push_watched<R: Threads + Wait + Sync>(
    rt: &R,
    machine: &Counter,
    bounds: Bounds,
    search: &str,
    numbers: &[u64],
    out: &mut String,
) -> Result<(), AllocError> {
    let effort = Effort {
        most_kept: 1_000,
        first_bound: number_at(numbers, 8, 0),
    };
    let mut watch = Counted::new(number_at(numbers, 9, 0));
    let mut tables = machine.new_tables()?;
    let ending = find_word_watched(
        rt,
        machine.alloc,
        machine,
        &mut tables,
        bounds,
        effort,
        0,
        &NoGate,
        &mut watch,
    );
    write!(out, "{ending:?}")?;
    push_news(search, &watch, out)
}

// A watch is asked before each level: the word has 4 steps, and 3 are known to be left at least. With a bound that
// grows the first levels are searched twice.
//
// It is stopped in the first search, and in the second one, where more is known. A dive is asked about, and so is the
// search after it where the dive was stopped.
const WATCHED: &str =
    "> news 5 2 0 2 0 9 1 1000 9 100 = Ok(Answer(Word([0, 0, 1, 1, 0]))), asked 4, bound 9, 3 at least
> news 5 2 0 2 0 9 1 1000 0 100 = Ok(Answer(Word([0, 0, 1, 1, 0]))), asked 7, bound 4, 4 at least
> watched 5 2 0 2 0 9 1 1000 0 0 = Ok(Stopped { none_below: 3 })
> watched 5 2 0 2 0 9 1 1000 0 2 = Ok(Stopped { none_below: 3 })
> watched 5 2 0 2 0 9 1 1000 0 3 = Ok(Stopped { none_below: 4 })
> watched 5 2 0 2 0 9 1 1000 0 6 = Ok(Stopped { none_below: 4 })
> watched 5 2 0 2 0 9 1 1000 0 7 = Ok(Answer(Word([0, 0, 1, 1, 0])))
> asked 500 2 249 2 249 2 1 1000 0 100 = Ok(Answer(None)), asked 1
> asked 500 2 249 2 249 2 1 1000 0 0 = Ok(Stopped { none_below: 3 }), asked 2";

#[test]
fn a_watch_is_asked_and_stops_a_search(rt: HostRuntime) -> Result<(), AllocError> {
    expect_answers(&rt, rt.alloc(), WATCHED)
}
