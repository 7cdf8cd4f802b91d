//! The positions of labelled subtasks.
ghost use Rattle.std.specs.Prelude.{◌≡◌, cond, Some, None, IfOk, OnOk};
ghost use Rattle.hddl_meaning.specs.Mentions.{Text, folded};
ghost use Rattle.hddl_meaning.specs.Names.{is_same_text};
ghost use Rattle.hddl_meaning.specs.Networks.{is_text};
ghost use Rattle.hddl_build.specs.Labels.{AreLabelsOf, first_of, position_in};

use hddl_names::{fold, fold_to_vec};
use hddl_words::{Name, SubtaskText};
use indexmap::IndexMap;
use std::alloc::{AllocError, Global};

/// The labels of a network, each with the position of its first subtask.
pub(crate) struct Labels {
    positions: IndexMap<Vec<u8>, usize>,
}

impl Drop for Labels {
    fn drop(self) {
        let Labels { positions: _ } = self;
    }
}

impl Labels {
    /// The labels of these subtasks.
    pub(crate) fn of(alloc: Global, subtasks: &[SubtaskText]) -> Result<Labels, AllocError>
        ensures { IfOk result (AreLabelsOf subtasks.now) }
    {
        let mut labels = Labels {
            positions: IndexMap::new(alloc),
        };
        for (position, subtask) in subtasks.iter().enumerate() {
            labels.add(alloc, subtask, position)?;
        }
        Ok(labels)
    }

    /// Gives the label of a subtask its position, unless it has no label or the label has a position.
    fn add(
        &mut self,
        alloc: Global,
        subtask: &SubtaskText,
        position: usize,
    ) -> Result<(), AllocError>
        ensures { OnOk result ((text : Text)
            → position_in self.new text ≡ first_of (position_in self.old text) (cond (is_text text subtask.now.label) (Some position) None)) }
    {
        match &subtask.label {
            Some(label) => self.add_label(alloc, label, position)?,
            None => {}
        }
        Ok(())
    }

    /// Gives a label its position, unless it has one.
    fn add_label(&mut self, alloc: Global, label: &Name, position: usize) -> Result<(), AllocError>
        ensures { OnOk result ((text : Text)
            → position_in self.new text ≡ first_of (position_in self.old text) (cond (is_same_text text (folded label.now.text)) (Some position) None)) }
    {
        let text = fold_to_vec(alloc, label.text())?;
        if self.positions.contains_key(text.as_slice()) {
            return Ok(());
        }
        self.positions.insert(text, position)?;
        Ok(())
    }

    /// The position of the subtask that has the label, if one has it.
    pub(crate) fn position_of(
        &self,
        alloc: Global,
        label: &Name,
    ) -> Result<Option<usize>, AllocError>
        ensures { IfOk result (λ position. position ≡ position_in self.now (folded label.now.text)) }
    {
        let text = fold(alloc, label.text())?;
        Ok(self.positions.get(text.as_slice()).copied())
    }
}
