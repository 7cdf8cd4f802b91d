//! The literals that the nodes of a network give one another.
ghost use Rattle.std.specs.Prelude.{◌≡◌, ◌<◌, length};
ghost use Rattle.htn_model.specs.Literal as model;
ghost use Rattle.htn_model.specs.Problem.{Network};
ghost use Rattle.heuristics.specs.Needs.{is_ungiven};
ghost use Rattle.heuristics.specs.Places.{AreGiven, ArePlaces, may_give_by};
ghost use Rattle.heuristics.specs.Rows.{literal_number, outlook_of};

use crate::given::Given;
use crate::needs::Needs;
use crate::places::Place;
use htn_order::Order;

impl Needs {
    /// Whether the node at a position may make the literal of a number true for another one: it is not after that node,
    /// and gives the literal.
    fn may_give_at(
        &self,
        places: &[Place],
        order: &Order,
        number: Option<usize>,
        at: usize,
        position: usize,
    ) -> bool
        requires { position < length places.now }
        ensures { result ≡ may_give_by self.now places.now order.now number at position }
    {
        at != position && self.gives_at(places[position], number) && !order.is_before(at, position)
    }

    /// Whether no other node may make the literal of a number true for the node at a position. `given` are the literals
    /// that at least one of the nodes gives: the nodes are compared only for one of these.
    pub fn is_ungiven_at(
        &self,
        places: &[Place],
        given: &Given,
        order: &Order,
        number: Option<usize>,
        at: usize,
    ) -> bool
        ensures { (n : Network) (l : model.Literal) → ArePlaces self.now places.now n → AreGiven self.now n given.now
            → order.now ≡ n.order → number ≡ literal_number self.now l
            → result ≡ is_ungiven (outlook_of self.now) n at l }
    {
        if !given.has(number) {
            return true;
        }
        for position in 0..places.len() {
            if self.may_give_at(places, order, number, at, position) {
                return false;
            }
        }
        true
    }
}
