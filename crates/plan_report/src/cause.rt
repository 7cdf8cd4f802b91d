//! Causes of lines without an instance.

use plan_lines::WordsCause;

/// Why a line of a plan file has no instance.
#[derive(Clone, Copy, PartialEq, Eq, Debug)]
pub(crate) enum LineCause {
    /// The words of the line itself name no such task.
    Words(WordsCause),
    /// No method has the name.
    NoMethod,
    /// The method is one of another task.
    OtherTask,
    /// The words of the child, or of the root, at this place in the line's list name no task at objects.
    ChildWords {
        child: usize,
        cause: WordsCause,
    },
    /// No instance of the method is for this task, whatever its children are; or the initial network has no instance.
    NoInstance,
    /// The network has this many subtasks, and another number of children is listed.
    Children {
        wanted: usize,
        /// The first subtask that none of the children can be, if one was found.
        subtask: Option<usize>,
    },
    /// The child at this place can be no subtask.
    Child {
        child: usize,
        /// The first subtask that none of the children can be, if one was found.
        subtask: Option<usize>,
    },
    /// None of the children can be this subtask.
    Subtask {
        subtask: usize,
    },
    /// No instance has all children together, and no child or subtask alone was found to be the cause.
    NoValues,
}
