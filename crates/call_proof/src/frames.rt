//! The frames of nodes by number.
ghost use Rattle.std.specs.Prelude.{◌≡◌, IfSome, Some, slice_get};
ghost use Rattle.call_proof.specs.Parts.{masks_of};

use state_table::BitState;

/// A mask for each node by number. Nodes may share one.
pub struct Frames {
    /// By node, the place of its mask.
    of: Vec<u32>,
    masks: Vec<BitState>,
}

impl Drop for Frames {
    fn drop(self) {
        let Frames { of: _, masks: _ } = self;
    }
}

impl Frames {
    /// The frames of some masks, with the place of its mask for each node.
    pub fn new(of: Vec<u32>, masks: Vec<BitState>) -> Frames {
        Frames { of, masks }
    }

    /// The mask of a node, if it has one.
    pub fn mask(&self, node: u32) -> Option<&BitState>
        ensures { IfSome result (λ m. slice_get (masks_of self.now) node ≡ Some m.now) }
    {
        let Some(place) = self.of.get(node as usize) else {
            return None;
        };
        self.masks.get(*place as usize)
    }
}
