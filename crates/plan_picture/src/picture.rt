//! Pictures of plan files.

ghost use Rattle.std.specs.Prelude.{◌≡◌, length, MatchOption, IfOk};
ghost use Rattle.htn_model.specs.PlanFile.{IsForest};
ghost use Rattle.plan_text.specs.Forest.{IsForestOf, lists_of};
ghost use Rattle.plan_picture.specs.Picture.{IsPictureOf};

use crate::firsts::firsts_of;
use crate::order::{all_drawn, drawn};
use crate::row::Row;
use crate::walk::rows_of;
use plan_text::{Forest, PlanFile, forest_of};
use std::alloc::{AllocError, Global};

/// The forest that the lines of a plan file are, as it is drawn. Lines are known by their numbers.
pub struct Picture<'a> {
    pub file: &'a PlanFile,
    /// The lines of the root line, as they are drawn.
    pub roots: Vec<usize>,
    /// The children of each decomposition line, as they are drawn.
    pub children: Vec<Vec<usize>>,
    /// All lines from the top down.
    pub rows: Vec<Row>,
}

impl Drop for Picture<'_> {
    fn drop(self) {
        let Picture {
            file: _,
            roots: _,
            children: _,
            rows: _,
        } = self;
    }
}

/// The children of each decomposition line, as they are listed.
fn listed_children(
    alloc: Global,
    forest: &Forest,
    count: usize,
) -> Result<Vec<Vec<usize>>, AllocError>
    requires { length forest.now.children ≡ count }
    ensures { IfOk result (λ lists. lists_of lists.items ≡ forest.now.children) }
{
    let mut lists = Vec::new(alloc);
    for place in 0..count {
        lists.push(Vec::from_slice(alloc, forest.children(place))?)?;
    }
    Ok(lists)
}

/// The picture of a forest.
fn drawing_of<'a>(
    alloc: Global,
    file: &'a PlanFile,
    forest: &Forest,
) -> Result<Picture<'a>, AllocError>
    requires { IsForestOf file.now forest.now }
    ensures { IfOk result (λ picture. IsPictureOf file.now picture) }
{
    let actions = file.actions().len();
    let decompositions = file.decompositions().len();
    let listed = listed_children(alloc, forest, decompositions)?;
    let before = rows_of(alloc, actions, forest.roots(), listed.as_slice())?;
    let firsts = firsts_of(
        alloc,
        actions,
        decompositions,
        listed.as_slice(),
        before.as_slice(),
    )?;
    let roots = drawn(alloc, firsts.as_slice(), forest.roots())?;
    let children = all_drawn(alloc, firsts.as_slice(), listed.as_slice())?;
    let rows = rows_of(alloc, actions, roots.as_slice(), children.as_slice())?;
    Ok(Picture {
        file,
        roots,
        children,
        rows,
    })
}

/// The picture of a plan file; none where its lines are no forest.
pub fn picture_of(alloc: Global, file: &PlanFile) -> Result<Option<Picture<'_>>, AllocError>
    ensures { IfOk result (λ r. MatchOption r (IsForest file.now → ⊥) (λ picture. IsPictureOf file.now picture)) }
{
    match forest_of(alloc, file)? {
        Some(forest) => Ok(Some(drawing_of(alloc, file, &forest)?)),
        None => Ok(None),
    }
}
