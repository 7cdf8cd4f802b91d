//! Instances of methods and of the initial network.
ghost use Rattle.std.specs.Prelude.{◌≡◌};

use crate::child::ChildList;
use crate::object_list::ObjectList;
use htn_order::Order;
use std::marker::Model;

/// An instance of a method or of the initial network: a ground network with where it comes from.
pub struct Instance {
    method: Option<u16>,
    values: ObjectList,
    children: ChildList,
    order: Order,
}

impl Drop for Instance {
    fn drop(self) {
        let Instance {
            method: _,
            values: _,
            children: _,
            order: _,
        } = self;
    }
}

impl Model for Instance {
    ghost use Rattle.htn_model.specs.Instance as model;

    ghost Value = { model.Instance };

    ghost coded = { model.instance_code };

    ghost view = { λ i. record { method = i.method; values = i.values; network = record { children = i.children; order = i.order } } };
}

impl Instance {
    /// An instance of these parts.
    pub fn new(
        method: Option<u16>,
        values: ObjectList,
        children: ChildList,
        order: Order,
    ) -> Instance
        ensures { result ≡ record { method = method; values = values; network = record { children = children; order = order } } }
    {
        Instance {
            method,
            values,
            children,
            order,
        }
    }

    /// The number of the method; none for the initial network.
    pub fn method(&self) -> Option<u16>
        ensures { result ≡ self.now.method }
    {
        self.method
    }

    /// The objects that the parameters stand for.
    pub fn values(&self) -> &[u16]
        ensures { result.now ≡ self.now.values }
    {
        self.values.as_slice()
    }

    /// The precondition step, if there is one, and then the subtasks in declared order.
    pub fn children(&self) -> &ChildList
        ensures { result.now ≡ self.now.network.children }
    {
        &self.children
    }

    /// Which children are before which others; the step is before all others.
    pub fn order(&self) -> &Order
        ensures { result.now ≡ self.now.network.order }
    {
        &self.order
    }
}
