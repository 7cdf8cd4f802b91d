//! Which types of a domain are below which.
ghost use Rattle.std.specs.Prelude.{◌≡◌, ℕ, ◌<◌, ◌↔◌, false, IsTrue, IfOk, Contains, All, option_map, length};
ghost use Rattle.std.specs.List.{position};
ghost use Rattle.hddl_meaning.specs.Mentions.{mention_of, typed_names};
ghost use Rattle.hddl_meaning.specs.Names.{is_same_text, type_names};
ghost use Rattle.hddl_meaning.specs.Types.{IsBelow, IsOnCycle, text_or_object};
ghost use Rattle.hddl_meaning.specs.Items.{ShareSubtype};
ghost use Rattle.hddl_names.specs.Cycles.{typed_name};
ghost use Rattle.hddl_names.specs.Reach.{IsAboveSome};
ghost use Rattle.hddl_names.specs.TypeNumbers.{type_at, is_root, numbered_pairs};

use crate::condensed::Condensed;
use crate::edges::{rows_of, turned};
use crate::names::Names;
use crate::pairs::{parent_number, parent_pairs};
use crate::reach::{all_reached, reached};
use crate::rows::Rows;
use crate::vocabulary::Vocabulary;
use hddl_words::{DomainText, Name};
use indexmap::IndexSet;
use std::alloc::{AllocError, Global};
use std::marker::Model;

/// The types of a domain by their numbers. Contracts see the domain.
pub struct TypeHierarchy<'a> {
    domain: &'a DomainText,
    names: &'a Names,
    /// Of each type.
    parents: Rows,
    /// What each type is a parent of.
    children: Rows,
    /// The closure of the types' parents, which decides which type is below which: for speed.
    closure: Option<Condensed>,
}

impl Drop for TypeHierarchy<'_> {
    fn drop(self) {
        let TypeHierarchy {
            domain: _,
            names: _,
            parents: _,
            children: _,
            closure: _,
        } = self;
    }
}

impl<'a> Model for TypeHierarchy<'a> {
    ghost use Rattle.hddl_words.specs.declared.domain.DomainText.{DomainText as Domain};
    ghost use Rattle.hddl_words.specs.contracts.condition.Condition as condition;
    ghost use Rattle.std.specs.Coded.{codes};
    ghost use Rattle.hddl_names.specs.Heads.{AreHierarchyOf};

    ghost Value = { Domain };

    ghost coded = { Prim.hlevel (codes, condition.the_row.coded) };

    ghost view = { λ types. types.domain.now };

    ghost invariant = { λ types. AreHierarchyOf types.domain.now types.names.now types.parents types.children types.closure };
}

/// The number of `object`, the first of the types.
const OBJECT: usize = 0;

/// Whether the two have a number in common.
fn share(these: &IndexSet<usize>, those: &IndexSet<usize>) -> bool
    ensures { IsTrue result ↔ ((x : ℕ) × Contains these.now.keys x × Contains those.now.keys x) }
{
    for x in these.as_slice() {
        if those.contains(x) {
            return true;
        }
    }
    false
}

impl<'a> TypeHierarchy<'a> {
    /// The types of a domain, with their numbers in its vocabulary, or an error where memory was refused.
    pub fn of(
        alloc: Global,
        domain: &'a DomainText,
        vocabulary: &'a Vocabulary,
    ) -> Result<TypeHierarchy<'a>, AllocError>
        requires { vocabulary.now.types ≡ type_names domain.now }
        ensures { IfOk result (λ types. types ≡ domain.now) }
    {
        let names = vocabulary.types();
        let pairs = parent_pairs(alloc, names, domain.types.as_slice())?;
        let back = turned(alloc, &pairs)?;
        let parents = rows_of(alloc, names.len(), &pairs)?;
        let children = rows_of(alloc, names.len(), &back)?;
        let closure = Condensed::of(alloc, &pairs, &parents, &children)?;
        Ok(TypeHierarchy {
            domain,
            names,
            parents,
            children,
            closure,
        })
    }

    /// The domain.
    pub fn domain(&self) -> &DomainText
        ensures { result.now ≡ self.now }
    {
        self.domain
    }

    /// The number of a type that is written, or of `object` where none is. None where it isn't declared.
    pub fn type_of(&self, alloc: Global, name: &Option<Name>) -> Result<Option<usize>, AllocError>
        ensures { IfOk result (λ number. number ≡ position (is_same_text (text_or_object (option_map mention_of name.now))) (type_names self.now)) }
    {
        let mut buffer = Vec::new(alloc);
        match name {
            Some(written) => self.names.number_as_written(&mut buffer, written.text()),
            None => Ok(self.names.number_of(b"object")),
        }
    }

    /// Whether a type is below another, both by number. A type is below itself.
    pub fn is_below(&self, alloc: Global, t: usize, u: usize) -> Result<bool, AllocError>
        requires t { t < length (type_names self.now) }
        requires u { u < length (type_names self.now) }
        ensures { IfOk result (λ below. IsTrue below ↔ IsBelow self.now (type_at self.now t) (type_at self.now u)) }
    {
        if t == u || u == OBJECT {
            return Ok(true);
        }
        if let Some(closure) = &self.closure {
            return Ok(closure.leads_to(t, u));
        }
        let above = reached(alloc, &self.parents, t)?;
        Ok(above.contains(&u))
    }

    /// Whether some type is below both, each by number.
    pub fn share_subtype(&self, alloc: Global, t: usize, u: usize) -> Result<bool, AllocError>
        requires t { t < length (type_names self.now) }
        requires u { u < length (type_names self.now) }
        ensures { IfOk result (λ some. IsTrue some ↔ ShareSubtype self.now (type_at self.now t) (type_at self.now u)) }
    {
        if t == OBJECT || u == OBJECT {
            return Ok(true);
        }
        if let Some(closure) = &self.closure {
            return Ok(closure.meet(t, u));
        }
        let below_t = reached(alloc, &self.children, t)?;
        let below_u = reached(alloc, &self.children, u)?;
        Ok(share(&below_t, &below_u))
    }

    /// The numbers of the types that some of these are below, each once.
    pub fn all_above(&self, alloc: Global, starts: &[usize]) -> Result<IndexSet<usize>, AllocError>
        requires { All (λ t. t < length (type_names self.now)) starts.now }
        ensures { IfOk result (λ found. IsAboveSome (numbered_pairs self.now) starts.now found.keys) }
    {
        let found = all_reached(alloc, &self.parents, starts)?;
        Ok(found)
    }

    /// Whether a declared pair, of a type and its parent by number, lies on a cycle. `object` with itself doesn't.
    fn is_on_cycle(&self, alloc: Global, child: usize, parent: usize) -> Result<bool, AllocError>
        requires child { child < length (type_names self.now) }
        requires parent { parent < length (type_names self.now) }
        ensures { IfOk result (λ cycle. IsTrue cycle
            ↔ ((is_root (child, parent) ≡ false) × IsBelow self.now (type_at self.now parent) (type_at self.now child))) }
    {
        if child == OBJECT && parent == OBJECT {
            return Ok(false);
        }
        let cycle = self.is_below(alloc, parent, child)?;
        Ok(cycle)
    }

    /// Whether a declaration of a type, with the parent that is written for it, lies on a cycle, or an error where memory
    /// was refused.
    pub fn lies_on_cycle(
        &self,
        alloc: Global,
        name: &Name,
        parent: &Option<Name>,
    ) -> Result<bool, AllocError>
        requires { Contains (typed_names self.now.types) (typed_name parent.now name.now) }
        ensures { IfOk result (λ cycle. IsTrue cycle ↔ IsOnCycle self.now (typed_name parent.now name.now)) }
    {
        let mut buffer = Vec::new(alloc);
        let child = self.names.number_or_zero(&mut buffer, name.text())?;
        let parent = parent_number(&mut buffer, self.names, parent)?;
        let cycle = self.is_on_cycle(alloc, child, parent)?;
        Ok(cycle)
    }
}
