//! The desk, its passes, and what is known once all passes have come back.
ghost use Rattle.std.specs.Prelude.{◌≡◌, ◌<◌, ◌≤◌, ◌^◌, ◌++◌, ◌∷◌, [], true, false, length, replicate, All, Any, Contains, IfOk, IfSome, IfNone, MatchOption, vec_len};
ghost use Rattle.word_machine.specs.Desk.{new_pass, all_drawn, all_reported, all_seen, HasEachBelow, IsLeast};
ghost use Rattle.word_machine.specs.Views.{whole, one_seat, desk_of, no_place, IsOf, IsOfAll};

use crate::steps::{Draw, Look, OneSeat, Report};
use crate::view::{DeskRule, Size, View};
use atomic_table::{Seat, Table};
use std::alloc::{AllocError, Global};
use std::marker::Model;

// The word with the next number, and the word with the least place.
const DRAW: usize = 0;

const LEAST: usize = 1;

/// Hands out the numbers of the pieces of a level, each once, and holds the least place that was reported.
///
/// Threads share a desk by reference, each with a pass of its own. Every call on it is one atomic operation on one
/// word: there is no lock, no retry and no wait, no memory is taken, and no call fails.
#[derive(Drop)]
pub struct Desk {
    table: Table<(), View, Size, DeskRule, Global>,
    size: Size,
}

impl Model for Desk {
    ghost use Rattle.std.specs.Prelude.{◌≡◌, ◌<◌};
    ghost use Rattle.word_machine.specs.Desk.{DeskState};

    ghost Value = { DeskState };

    ghost view = { λ d. record { id = d.table.shared.table_id; pieces = d.size.pieces; seats = d.size.seats } };

    ghost invariant = { λ d. (d.table.shared.table_id.words ≡ 2) × (d.table.shared.table_id.slots ≡ 0) × (d.table.shared.key ≡ d.size) × (0 < d.size.seats) };
}

/// The right of one worker to draw, to report and to look at a desk. It knows the numbers that it drew, the places that
/// it reported, and those that it saw; contracts alone see these lists, and they take no room.
#[derive(Drop)]
pub struct Pass {
    seat: Seat<(), View>,
    ended: bool,
}

impl Model for Pass {
    ghost use Rattle.std.specs.Prelude.{◌≡◌, [], if◌then◌else◌};
    ghost use Rattle.word_machine.specs.Desk.{PassState};
    ghost use Rattle.word_machine.specs.Views.{state_of};

    ghost Value = { PassState };

    ghost view = { λ p. state_of p.seat.table_id p.seat.me.0 p.ended };

    ghost invariant = { λ p. (p.seat.me.1 ≡ []) × (p.seat.me.0.seats ≡ 1) × (p.seat.me.0.ended ≡ (if p.ended then 1 else 0)) };
}

/// The result of a desk once all its passes have come back: how many numbers were drawn, and the least place reported.
#[derive(Drop)]
pub struct Closed {
    drawn: u64,
    least: Option<u64>,
}

impl Model for Closed {
    ghost use Rattle.word_machine.specs.Desk.{ClosedState};

    ghost Value = { ClosedState };

    ghost view = { λ c. record { drawn = c.drawn; least = c.least } };
}

impl Pass {
    fn new(seat: Seat<(), View>) -> Pass
        requires { seat.me ≡ (one_seat seat.me.0.size, []) }
        ensures { result ≡ new_pass (desk_of seat) }
    {
        Pass { seat, ended: false }
    }

    /// Whether a claim of this pass has met the end of the numbers. From then on it claims no more.
    pub fn ended(&self) -> bool
        ensures { result ≡ self.now.ended }
    {
        self.ended
    }

    fn into_seat(self) -> Seat<(), View>
        ensures { IsOf self result }
    {
        let Pass { seat, ended: _ } = self;
        seat
    }
}

impl Closed {
    /// How many numbers were drawn. They are the numbers below it, and each was drawn once.
    pub fn drawn(&self) -> u64
        ensures { result ≡ self.now.drawn }
    {
        self.drawn
    }

    /// The least of all places reported, or None if there is no report.
    pub fn least(&self) -> Option<u64>
        ensures { result ≡ self.now.least }
    {
        self.least
    }
}

impl Desk {
    /// A desk for this many pieces, numbered from 0, and a pass for each seat. There may be no pieces at all: then the
    /// first claim of each pass finds none left. An error says that memory was refused.
    pub fn new(alloc: Global, pieces: u64, seats: u64) -> Result<(Desk, Vec<Pass>), AllocError>
        requires pieces { pieces ≤ 2 ^ 63 }
        requires seats { (0 < seats) × (seats ≤ 64) }
        ensures desk { IfOk result (λ r. (r.0.pieces ≡ pieces) × (r.0.seats ≡ seats)) }
        ensures passes { IfOk result (λ r. r.1.items ≡ replicate seats (new_pass r.0)) }
    {
        let size = Size { pieces, seats };
        let (table, seat) = Table::of_words(alloc, &[0, u64::MAX], &size)?;
        let desk = Desk { table, size };
        let passes = desk.deal(alloc, seat)?;
        Ok((desk, passes))
    }

    // Cuts the seat that stands for all into one for each pass.
    fn deal(&self, alloc: Global, mut seat: Seat<(), View>) -> Result<Vec<Pass>, AllocError>
        requires { (desk_of seat ≡ self.now) × (seat.me ≡ (whole seat.me.0.size, [])) × (self.now.seats ≤ 64) }
        ensures { IfOk result (λ passes. passes.items ≡ replicate self.now.seats (new_pass self.now)) }
    {
        let mut passes = Vec::with_capacity(alloc, self.size.seats as usize)?;
        for _ in 1..self.size.seats {
            let one = self.table.shared.split_seat::<OneSeat>(&mut seat);
            passes.push(Pass::new(one))?;
        }
        passes.push(Pass::new(seat))?;
        Ok(passes)
    }

    /// Draws the next number, which no other claim of any pass has, or None if no number is left. One atomic addition.
    pub fn claim(&self, pass: &mut Pass) -> Option<u64>
        requires own { pass.old.desk ≡ self.now }
        requires not_ended { pass.old.ended ≡ false }
        ensures some { IfSome result (λ n. (n < self.now.pieces) × (pass.new ≡ record pass.old { drawn = pass.old.drawn ++ n ∷ [] })) }
        ensures none { IfNone result (pass.new ≡ record pass.old { ended = true }) }
        ensures rising { IfSome result (λ n. All (λ m. m < n) pass.old.drawn) }
    {
        let number = self.table.shared.fetch_add::<Draw>(&mut pass.seat, DRAW, 1);
        if number < self.size.pieces {
            Some(number)
        } else {
            pass.ended = true;
            None
        }
    }

    /// Reports a place, for all passes to see. One atomic minimum.
    pub fn report(&self, pass: &mut Pass, place: u64)
        requires own { pass.old.desk ≡ self.now }
        requires place { place < no_place }
        ensures { pass.new ≡ record pass.old { reported = pass.old.reported ++ place ∷ [] } }
    {
        self.table
            .shared
            .fetch_min::<Report>(&mut pass.seat, LEAST, place);
    }

    /// The least place reported so far by any pass, or None if no report has come. It is not above any place that this
    /// pass has reported or seen. One atomic load.
    pub fn least(&self, pass: &mut Pass) -> Option<u64>
        requires own { pass.old.desk ≡ self.now }
        ensures none { IfNone result ((pass.new ≡ pass.old) × (pass.old.reported ≡ []) × (pass.old.seen ≡ [])) }
        ensures some { IfSome result (λ x. pass.new ≡ record pass.old { seen = pass.old.seen ++ x ∷ [] }) }
        ensures lowest { IfSome result (λ x. All (λ y. x ≤ y) pass.old.reported × All (λ y. x ≤ y) pass.old.seen) }
    {
        let place = self.table.shared.load::<Look>(&mut pass.seat, LEAST);
        place_of(place)
    }

    /// Ends the desk, once all its passes have come back.
    pub fn close(self, passes: Vec<Pass>) -> Closed
        requires own { All (λ p. p.desk ≡ self) passes.items }
        requires all { vec_len passes ≡ self.seats }
        ensures drawn { HasEachBelow result.drawn (all_drawn passes.items) }
        ensures within { result.drawn ≤ self.pieces }
        ensures ended { Any (λ p. p.ended ≡ true) passes.items → result.drawn ≡ self.pieces }
        ensures least { MatchOption result.least (all_reported passes.items ≡ []) (IsLeast (all_reported passes.items)) }
        ensures seen { All (λ x. Contains (all_reported passes.items) x) (all_seen passes.items) }
        ensures not_below { IfSome result.least (λ m. All (λ x. m ≤ x) (all_seen passes.items)) }
    {
        let seat = self.join_all(passes);
        let Desk { table, size } = self;
        let closed = table.close_with(seat);
        let drawn = closed.word(DRAW).min(size.pieces);
        let least = place_of(closed.word(LEAST));
        closed.free();
        Closed { drawn, least }
    }

    // One seat that stands for all these passes.
    fn join_all(&self, mut passes: Vec<Pass>) -> Seat<(), View>
        requires own { All (λ p. p.desk ≡ self.now) passes.items }
        requires some { 0 < vec_len passes }
        ensures { IsOfAll self.now passes.items result }
    {
        let Some(last) = passes.pop() else {
            unreachable!()
        };
        let mut seat = last.into_seat();
        while let Some(pass) = passes.pop() {
            self.table
                .shared
                .join_seat::<OneSeat>(&mut seat, pass.into_seat());
        }
        seat
    }
}

// The place that the least word holds, if there is one.
fn place_of(word: u64) -> Option<u64>
    ensures none { IfNone result (word ≡ no_place) }
    ensures some { IfSome result (λ place. (place ≡ word) × (word < no_place)) }
{
    if word == u64::MAX { None } else { Some(word) }
}
