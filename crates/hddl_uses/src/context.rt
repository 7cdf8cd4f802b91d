//! What a check knows of the texts.
ghost use Rattle.std.specs.Prelude.{◌≡◌, MatchOption};
ghost use Rattle.hddl_meaning.specs.Building.{vocabulary_of};
ghost use Rattle.hddl_names.specs.Members.{AreDeclaredTypes};
ghost use Rattle.hddl_uses.specs.Known.{AreKnown};
ghost use Rattle.hddl_uses.specs.Declarations.{AreDeclarationsOf};

use crate::declared::Declarations;
use hddl_meaning::{At, Source};
use hddl_names::{DeclaredTypes, TypeHierarchy, Vocabulary};
use hddl_words::{DomainText, ProblemText};
use std::alloc::Global;

/// The text that is checked, with what both texts declare.
#[derive(Drop)]
pub struct Context<'a, 'd> {
    pub alloc: Global,
    /// Which of the two texts is checked.
    pub source: Source,
    pub domain: &'a DomainText,
    pub problem: &'a ProblemText,
    pub vocabulary: &'a Vocabulary,
    pub types: &'a TypeHierarchy<'a>,
    /// The types of each object, unless one of these isn't declared, or there are more objects than sixteen bits
    /// number.
    pub objects: Option<&'a DeclaredTypes>,
    pub declared: &'a Declarations<'d>,
    ghost known: { vocabulary.now ≡ vocabulary_of domain.now problem.now },
    ghost known_types: { types.now ≡ domain.now },
    ghost known_objects: { ∥ MatchOption objects (AreKnown domain.now problem.now → ⊥) (λ o. AreKnown domain.now problem.now × AreDeclaredTypes domain.now problem.now o.now) ∥₁ },
    ghost known_declared: { AreDeclarationsOf domain.now declared.now },
}

impl Context<'_, '_> {
    /// That place, a byte offset, in the text that is checked.
    pub fn at(&self, place: usize) -> At
        ensures { result ≡ record { source = self.now.source; place = place } }
    {
        At {
            source: self.source,
            place,
        }
    }
}
