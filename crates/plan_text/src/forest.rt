//! Whether a file's lines are a forest.
ghost use Rattle.std.specs.Prelude.{IfOk, MatchOption};
ghost use Rattle.htn_model.specs.PlanFile.{IsForest};
ghost use Rattle.plan_text.specs.Forest.{IsForestOf};

use crate::ids::{defined, is_listed_once, numbers_of, numbers_of_children};
use crate::plan_file::PlanFile;
use crate::walk::reaches_all;
use std::alloc::{AllocError, Global};
use std::marker::Model;

/// The lines of a file as a forest. A line's number is its place among the action lines and then the
/// decomposition lines.
pub struct Forest {
    roots: Vec<usize>,
    children: Vec<Vec<usize>>,
}

impl Drop for Forest {
    fn drop(self) {
        let Forest {
            roots: _,
            children: _,
        } = self;
    }
}

impl Model for Forest {
    ghost use Rattle.plan_text.specs.Forest as model;

    ghost Value = { model.Forest };

    ghost view = { λ f. record { roots = f.roots.items; children = model.lists_of f.children.items } };
}

impl Forest {
    ghost use Rattle.std.specs.Prelude.{◌≡◌, [], get_or};

    /// The line numbers of the roots, as they are listed.
    pub fn roots(&self) -> &[usize]
        ensures { result.now ≡ self.now.roots }
    {
        self.roots.as_slice()
    }

    /// The line numbers of the children of the decomposition line at a place among these, as they are listed.
    pub fn children(&self, place: usize) -> &[usize]
        ensures { result.now ≡ get_or self.now.children place [] }
    {
        match self.children.get(place) {
            Some(children) => children.as_slice(),
            None => &[],
        }
    }
}

/// The forest of a file's lines; none where they are no forest: where an id is defined twice, listed
/// twice, listed but not defined, or not reached from the root line.
pub fn forest_of(alloc: Global, file: &PlanFile) -> Result<Option<Forest>, AllocError>
    ensures { IfOk result (λ r. MatchOption r (IsForest file.now → ⊥) (IsForestOf file.now)) }
{
    let Some(ids) = defined(alloc, file)? else {
        return Ok(None);
    };
    if !is_listed_once(alloc, file)? {
        return Ok(None);
    }
    let Some(roots) = numbers_of(alloc, &ids, file.roots())? else {
        return Ok(None);
    };
    let Some(children) = numbers_of_children(alloc, &ids, file.decompositions())? else {
        return Ok(None);
    };
    if !reaches_all(alloc, ids.len(), file.actions().len(), &roots, &children)? {
        return Ok(None);
    }
    Ok(Some(Forest { roots, children }))
}
