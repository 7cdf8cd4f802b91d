//! The faults that a check finds: all of them, or the first in the texts alone.
ghost use Rattle.std.specs.Prelude.{◌≡◌, [], true, false, slice_get, OnOk};
ghost use Rattle.hddl_scope.specs.Findings.{keep};

use crate::ranks::comes_before;
use hddl_meaning::CheckFault;
use std::alloc::{AllocError, Global};
use std::marker::Model;

/// Faults that were found: all, or only the first in the texts. Contracts see those that are stored, and which of the
/// two it is.
#[derive(Drop)]
pub struct Findings {
    keeps_all: bool,
    faults: Vec<CheckFault>,
}

impl Model for Findings {
    ghost Value = { Rattle.hddl_scope.specs.Findings.Kept };

    ghost view = { λ findings. record { keeps_all = findings.keeps_all; faults = findings.faults.items } };
}

impl Findings {
    /// No faults; all that are added will be stored.
    pub fn all(alloc: Global) -> Findings
        ensures { result ≡ record { keeps_all = true; faults = [] } }
    {
        Findings {
            keeps_all: true,
            faults: Vec::new(alloc),
        }
    }

    /// No faults; of those that are added the first in the texts will be stored.
    pub fn first(alloc: Global) -> Findings
        ensures { result ≡ record { keeps_all = false; faults = [] } }
    {
        Findings {
            keeps_all: false,
            faults: Vec::new(alloc),
        }
    }

    /// The faults that are stored.
    pub fn faults(&self) -> &[CheckFault]
        ensures { result.now ≡ self.now.faults }
    {
        &self.faults
    }

    /// Adds a fault.
    pub fn push(&mut self, fault: CheckFault) -> Result<(), AllocError>
        ensures { OnOk result (self.new ≡ keep self.old fault) }
    {
        if !self.keeps_all {
            if let Some(first) = self.faults.first().copied()
                && !comes_before(fault, first)
            {
                return Ok(());
            }
            self.faults.clear();
        }
        self.faults.push(fault)?;
        Ok(())
    }
}
