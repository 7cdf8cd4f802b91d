//! What is found of a line of a plan file.
ghost use Rattle.std.specs.Prelude.{◌≡◌};
ghost use Rattle.line_details.specs.Entries.{spans_of};

use htn_ground::Instance;

/// An instance of the line's method, or of the initial network for the root line, and how its nodes are placed: the
/// gaps between which everything below the line is, for each child the position of the network at which it stands, and
/// for each position the gaps between which that is placed.
pub struct Entry {
    pub instance: Instance,
    pub from: usize,
    pub to: usize,
    pub positions: Vec<usize>,
    pub start: Vec<usize>,
    pub finish: Vec<usize>,
}

// `Drop` is written by hand: a derived one is expanded, and proved, at each way out of each owner.
impl Drop for Entry {
    fn drop(self) {
        let Entry {
            instance: _,
            from: _,
            to: _,
            positions: _,
            start: _,
            finish: _,
        } = self;
    }
}

impl Entry {
    /// The first gap at which a position may be placed.
    pub fn start_at(&self, position: usize) -> usize
        ensures { result ≡ (spans_of self.now).start position }
    {
        match self.start.get(position) {
            Some(gap) => *gap,
            None => self.from,
        }
    }

    /// The last gap at which a position may be placed.
    pub fn finish_at(&self, position: usize) -> usize
        ensures { result ≡ (spans_of self.now).finish position }
    {
        match self.finish.get(position) {
            Some(gap) => *gap,
            None => self.to,
        }
    }
}
