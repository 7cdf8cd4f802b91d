//! Wants by ids.
ghost use Rattle.std.specs.Prelude.{◌≡◌, ◌<◌, [], ℕ, Bool, List, length, IfOk, IfSome, IsTrue, OnOk};
ghost use Rattle.std.specs.List.{list_all};
ghost use Rattle.state_table.specs.Compiled.{all_hold, is_met};
ghost use Rattle.heuristics.specs.ListedNeeds.{all_pass, AreIds, AreMoreWants, want_at};
ghost use Rattle.heuristics.specs.declared.wants.Want.{Want as Wanted};

use crate::wants::Want;
use state_table::{CompiledLiteral, CompiledLiterals};
use std::alloc::{AllocError, Global};
use std::collections::HashMap;

/// Wants by ids. A want that is added again mostly gets the id that it has, and no proof rests on that.
pub(crate) struct WantTable {
    pub(crate) wants: Vec<Want>,
    /// An id by the code of a literal, as a hint: the want of the id is compared.
    ids: HashMap<u64, u32>,
}

impl Drop for WantTable {
    fn drop(self) {
        let WantTable { wants: _, ids: _ } = self;
    }
}

/// The code of a literal, which no other literal has.
fn code_of(literal: CompiledLiteral) -> u64 {
    match literal {
        CompiledLiteral::Decided(holds) => u64::from(holds),
        CompiledLiteral::Positive(number) => u64::from(number) * 2 + 2,
        CompiledLiteral::Negative(number) => u64::from(number) * 2 + 3,
    }
}

/// Whether two literals are equal.
fn is_same_literal(literal: CompiledLiteral, other: CompiledLiteral) -> bool
    ensures { IsTrue result → literal ≡ other }
{
    match (literal, other) {
        (CompiledLiteral::Decided(a), CompiledLiteral::Decided(b)) => a == b,
        (CompiledLiteral::Positive(a), CompiledLiteral::Positive(b)) => a == b,
        (CompiledLiteral::Negative(a), CompiledLiteral::Negative(b)) => a == b,
        _ => false,
    }
}

/// Whether two optional numbers of literals are equal.
fn is_same_number(number: Option<usize>, other: Option<usize>) -> bool
    ensures { IsTrue result → number ≡ other }
{
    match (number, other) {
        (Some(a), Some(b)) => a == b,
        (None, None) => true,
        _ => false,
    }
}

/// The want of an id.
pub(crate) fn want_at(wants: &[Want], id: u32) -> Want
    ensures { result ≡ want_at wants.now id }
{
    match wants.get(id as usize) {
        Some(want) => *want,
        None => Want {
            number: None,
            literal: CompiledLiteral::Decided(false),
        },
    }
}

/// Whether a want has this id.
fn has_at(wants: &[Want], id: u32, want: Want) -> bool
    ensures within { IsTrue result → id < length wants.now }
    ensures same { IsTrue result → want_at wants.now id ≡ want }
{
    if id as usize >= wants.len() {
        return false;
    }
    let known = want_at(wants, id);
    is_same_number(known.number, want.number) && is_same_literal(known.literal, want.literal)
}

impl WantTable {
    /// The table without wants.
    pub(crate) fn new(alloc: Global) -> WantTable
        ensures { result.wants.items ≡ [] }
    {
        WantTable {
            wants: Vec::new(alloc),
            ids: HashMap::new(alloc),
        }
    }

    /// An id of a want, if it is found.
    fn find(&self, want: Want) -> Option<u32>
        ensures within { IfSome result (λ id. id < length self.now.wants.items) }
        ensures same { IfSome result (λ id. want_at self.now.wants.items id ≡ want) }
    {
        let id = *self.ids.get(&code_of(want.literal))?;
        if has_at(self.wants.as_slice(), id, want) {
            Some(id)
        } else {
            None
        }
    }

    /// Adds a want, by the next id.
    fn add(&mut self, want: Want) -> Result<u32, AllocError>
        ensures more { OnOk result (AreMoreWants self.old.wants.items self.new.wants.items) }
        ensures within { IfOk result (λ id. id < length self.new.wants.items) }
        ensures same { IfOk result (λ id. want_at self.new.wants.items id ≡ want) }
    {
        // At most 2^32 literals have ids. Past them a search answers `OutOfMemory` although no memory was refused. An
        // entry of the map alone takes at least 12 bytes, so the literals would have taken more than 50 GB by then.
        let Ok(id) = u32::try_from(self.wants.len()) else {
            return Err(AllocError);
        };
        let code = code_of(want.literal);
        self.ids.insert(code, id)?;
        self.wants.push(want)?;
        Ok(id)
    }

    /// The id of a want, which is added if it is not found.
    fn id(&mut self, want: Want) -> Result<u32, AllocError>
        ensures more { OnOk result (AreMoreWants self.old.wants.items self.new.wants.items) }
        ensures within { IfOk result (λ id. id < length self.new.wants.items) }
        ensures same { IfOk result (λ id. want_at self.new.wants.items id ≡ want) }
    {
        if let Some(id) = self.find(want) {
            return Ok(id);
        }
        let id = self.add(want)?;
        Ok(id)
    }

    /// The ids of wants, in their order. Wants that are not found are added.
    pub(crate) fn ids_of(&mut self, alloc: Global, wants: &[Want]) -> Result<Vec<u32>, AllocError>
        ensures more { OnOk result (AreMoreWants self.old.wants.items self.new.wants.items) }
        ensures ids { IfOk result (λ ids. AreIds self.new.wants.items ids.items) }
        ensures wants { IfOk result (λ ids. (test : Wanted → Bool)
            → all_pass test self.new.wants.items ids.items ≡ list_all test wants.now) }
    {
        let mut ids = Vec::with_capacity(alloc, wants.len())?;
        for want in wants {
            let id = self.id(*want)?;
            ids.push(id)?;
        }
        Ok(ids)
    }
}

/// The literals of ids, without repeats.
pub(crate) fn compiled_of(
    alloc: Global,
    wants: &[Want],
    ids: &[u32],
) -> Result<CompiledLiterals, AllocError>
    ensures { IfOk result (λ c. (words : List ℕ)
        → all_hold words c ≡ all_pass (λ (w : Wanted). is_met words w.literal) wants.now ids.now) }
{
    let mut found = CompiledLiterals::none(alloc);
    for id in ids {
        found.push(want_at(wants, *id).literal)?;
    }
    found.drop_repeats();
    Ok(found)
}
