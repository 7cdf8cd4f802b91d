//! Instances that compare equal where their networks are equal.
ghost use Rattle.std.specs.Prelude.{◌≡◌};

use crate::instance::Instance;
use std::hash::{Hash, Hasher};
use std::marker::Model;

/// An instance as a key, equal to each instance with the same network.
#[derive(Drop)]
pub(crate) struct ByNetwork {
    instance: Instance,
}

impl Model for ByNetwork {
    ghost use Rattle.htn_model.specs.Instance as model;

    ghost Value = { model.Instance };

    ghost coded = { model.instance_code };

    ghost view = { λ x. x.instance };
}

impl ByNetwork {
    pub(crate) fn new(instance: Instance) -> ByNetwork
        ensures { result ≡ instance }
    {
        ByNetwork { instance }
    }

    pub(crate) fn into_instance(self) -> Instance
        ensures { result ≡ self }
    {
        self.instance
    }
}

impl PartialEq for ByNetwork {
    ghost use Rattle.htn_ground.specs.Distinct.{same_network, same_network-partial};

    ghost eq = { same_network };

    ghost laws = { same_network-partial };

    fn eq(&self, other: &ByNetwork) -> bool {
        self.instance.children() == other.instance.children()
            && self.instance.order() == other.instance.order()
    }
}

impl Eq for ByNetwork {
    ghost use Rattle.htn_ground.specs.Distinct.{same_network-laws};

    ghost laws = { same_network-laws };
}

impl Hash for ByNetwork {
    ghost use Rattle.htn_ground.specs.Distinct.{network_hash, network_hash-Alike};

    ghost hash_input = { network_hash };

    ghost respects_eq = { network_hash-Alike.fed };

    fn hash<H: Hasher>(&self, state: &mut H) {
        self.instance.children().hash(state);
    }
}
