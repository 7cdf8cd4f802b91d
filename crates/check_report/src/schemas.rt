//! Methods and actions of a domain.
ghost use Rattle.check_report.specs.Schemas.{IsSchemaAt, places};
ghost use Rattle.std.specs.Prelude.{map};

use crate::causes::Schema;
use hddl_words::{ActionText, MethodText};

/// The methods or the actions of a domain.
#[derive(Clone, Copy)]
pub(crate) enum Schemas<'a> {
    Methods(&'a [MethodText]),
    Actions(&'a [ActionText]),
}

/// The method at a place.
fn method_at<'a>(methods: &'a [MethodText], place: usize) -> Option<Schema<'a>>
    ensures { IsSchemaAt (map (λ m. m.name.place) methods.now) place result }
{
    match methods.get(place) {
        Some(method) => Some(Schema {
            kind: "method ",
            name: &method.name,
            precondition: method.precondition.as_slice(),
        }),
        None => None,
    }
}

/// The action at a place.
fn action_at<'a>(actions: &'a [ActionText], place: usize) -> Option<Schema<'a>>
    ensures { IsSchemaAt (map (λ a. a.name.place) actions.now) place result }
{
    match actions.get(place) {
        Some(action) => Some(Schema {
            kind: "action ",
            name: &action.name,
            precondition: action.precondition.as_slice(),
        }),
        None => None,
    }
}

impl<'a> Schemas<'a> {
    /// The one at a place.
    pub(crate) fn at(self, place: usize) -> Option<Schema<'a>>
        ensures { IsSchemaAt (places self.entry) place result }
    {
        match self {
            Schemas::Methods(methods) => method_at(methods, place),
            Schemas::Actions(actions) => action_at(actions, place),
        }
    }
}
