//! Why the lines of a plan file are no forest: numbers of lines with which something is wrong.

ghost use Rattle.std.specs.Prelude.{◌≡◌, ◌⊎◌, ◌↔◌, ℕ, [], IfOk, OnOk};
ghost use Rattle.htn_model.specs.PlanFile.{IsIn, IsWithoutRepeats, defined_ids, listed_ids};
ghost use Rattle.plan_causes.specs.Structure.{AreExactly, AreWrong, IsMissing, IsRepeated};

use indexmap::IndexSet;
use plan_text::PlanFile;
use std::alloc::{AllocError, Global};

/// Numbers of lines with which something is wrong, each once.
pub struct WrongIds {
    /// Numbers that two lines have.
    pub defined_twice: Vec<u64>,
    /// Numbers that are listed twice, as roots or as children.
    pub listed_twice: Vec<u64>,
    /// Numbers that are listed and that no line has.
    pub undefined: Vec<u64>,
    /// Numbers that a line has and that are listed nowhere.
    pub unlisted: Vec<u64>,
}

impl Drop for WrongIds {
    fn drop(self) {
        let WrongIds {
            defined_twice: _,
            listed_twice: _,
            undefined: _,
            unlisted: _,
        } = self;
    }
}

/// The numbers of the lines of a file.
fn defined(alloc: Global, file: &PlanFile) -> Result<Vec<u64>, AllocError>
    ensures { IfOk result (λ v. v.items ≡ defined_ids file.now) }
{
    let mut ids = Vec::new(alloc);
    for line in file.actions() {
        ids.push(line.id())?;
    }
    for line in file.decompositions() {
        ids.push(line.id())?;
    }
    Ok(ids)
}

/// The numbers that a file lists, as roots and as children.
fn listed(alloc: Global, file: &PlanFile) -> Result<Vec<u64>, AllocError>
    ensures { IfOk result (λ v. v.items ≡ listed_ids file.now) }
{
    let mut ids = Vec::new(alloc);
    ids.extend_from_slice(file.roots())?;
    for line in file.decompositions() {
        ids.extend_from_slice(line.children())?;
    }
    Ok(ids)
}

/// Adds a number to those that were met, or to those that were met again.
fn meet(met: &mut IndexSet<u64>, again: &mut IndexSet<u64>, id: u64) -> Result<(), AllocError>
    requires met { IsWithoutRepeats met.old.keys }
    requires again { IsWithoutRepeats again.old.keys }
    ensures met { OnOk result ((x : ℕ) → IsIn x met.new.keys ↔ (IsIn x met.old.keys ⊎ (x ≡ id))) }
    ensures met_once { OnOk result (IsWithoutRepeats met.new.keys) }
    ensures again { OnOk result ((x : ℕ) → IsIn x again.new.keys ↔ (IsIn x again.old.keys ⊎ ((x ≡ id) × IsIn x met.old.keys))) }
    ensures once { OnOk result (IsWithoutRepeats again.new.keys) }
{
    if !met.insert(id)? {
        let _ = again.insert(id)?;
    }
    Ok(())
}

/// The numbers of a set.
fn listed_of(alloc: Global, ids: &IndexSet<u64>) -> Result<Vec<u64>, AllocError>
    ensures { IfOk result (λ v. v.items ≡ ids.now.keys) }
{
    let mut list = Vec::new(alloc);
    list.extend_from_slice(ids.as_slice())?;
    Ok(list)
}

/// Adds the numbers of a list to a set that has none, and returns those that stand more than once in the list.
fn repeated(alloc: Global, ids: &[u64], met: &mut IndexSet<u64>) -> Result<Vec<u64>, AllocError>
    requires { met.old.keys ≡ [] }
    ensures met { OnOk result (AreExactly (λ id. IsIn id ids.now) met.new.keys) }
    ensures repeated { IfOk result (λ v. AreExactly (IsRepeated ids.now) v.items) }
{
    let mut again = IndexSet::new(alloc);
    for id in ids {
        meet(met, &mut again, *id)?;
    }
    listed_of(alloc, &again)
}

/// The numbers that two lines have. The numbers of all lines are added to a set that has none.
fn defined_twice(
    alloc: Global,
    file: &PlanFile,
    met: &mut IndexSet<u64>,
) -> Result<Vec<u64>, AllocError>
    requires { met.old.keys ≡ [] }
    ensures met { OnOk result (AreExactly (λ id. IsIn id (defined_ids file.now)) met.new.keys) }
    ensures repeated { IfOk result (λ v. AreExactly (IsRepeated (defined_ids file.now)) v.items) }
{
    let ids = defined(alloc, file)?;
    let found = repeated(alloc, ids.as_slice(), met)?;
    Ok(found)
}

/// The numbers that are listed twice. The numbers that are listed are added to a set that has none.
fn listed_twice(
    alloc: Global,
    file: &PlanFile,
    met: &mut IndexSet<u64>,
) -> Result<Vec<u64>, AllocError>
    requires { met.old.keys ≡ [] }
    ensures met { OnOk result (AreExactly (λ id. IsIn id (listed_ids file.now)) met.new.keys) }
    ensures repeated { IfOk result (λ v. AreExactly (IsRepeated (listed_ids file.now)) v.items) }
{
    let ids = listed(alloc, file)?;
    let found = repeated(alloc, ids.as_slice(), met)?;
    Ok(found)
}

/// The numbers of a list without repeats that aren't in a set.
fn missing(alloc: Global, those: &IndexSet<u64>, these: &[u64]) -> Result<Vec<u64>, AllocError>
    requires { IsWithoutRepeats these.now }
    ensures { IfOk result (λ v. AreExactly (IsMissing those.now.keys these.now) v.items) }
{
    let mut missing = Vec::new(alloc);
    for id in these {
        if !those.contains(id) {
            missing.push(*id)?;
        }
    }
    Ok(missing)
}

/// The numbers of lines with which something is wrong. An error where memory was refused.
pub fn wrong_ids(alloc: Global, file: &PlanFile) -> Result<WrongIds, AllocError>
    ensures { IfOk result (AreWrong file.now) }
{
    let mut defined = IndexSet::new(alloc);
    let mut listed = IndexSet::new(alloc);
    let defined_twice = defined_twice(alloc, file, &mut defined)?;
    let listed_twice = listed_twice(alloc, file, &mut listed)?;
    Ok(WrongIds {
        defined_twice,
        listed_twice,
        undefined: missing(alloc, &defined, listed.as_slice())?,
        unlisted: missing(alloc, &listed, defined.as_slice())?,
    })
}
