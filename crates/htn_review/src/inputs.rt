//! Three texts with the names of their files.

use check_report::Input;

/// The texts of a domain, a problem and a plan, with the names of their files.
#[derive(Clone, Copy)]
pub(crate) struct Inputs<'a> {
    pub(crate) domain: Input<'a>,
    pub(crate) problem: Input<'a>,
    pub(crate) plan: Input<'a>,
}
