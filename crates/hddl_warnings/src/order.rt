//! The order of warnings: the domain's before the problem's, then by place, and at one place by kind.
ghost use Rattle.std.specs.Prelude.{◌≡◌};
ghost use Rattle.std.specs.Ordering.{as_partial_cmp, eq_by_cmp};
ghost use Rattle.hddl_warnings.specs.Order.{kind_number, place_cmp, source_number};

use crate::warning::{Warning, WarningKind};
use hddl_meaning::Source;
use std::cmp::Ordering;

/// The number of a text: the domain comes first.
fn source_number(source: Source) -> u8
    ensures { result ≡ source_number source }
{
    match source {
        Source::Domain => 0,
        Source::Problem => 1,
    }
}

/// The number of a kind.
fn kind_number(kind: WarningKind) -> u8
    ensures { result ≡ kind_number kind }
{
    match kind {
        WarningKind::OtherDomain => 0,
        WarningKind::UnusedParameter => 1,
        WarningKind::AddedAndDeleted => 2,
        WarningKind::NoMethod => 3,
        WarningKind::UnusedType => 4,
        WarningKind::UnusedPredicate => 5,
        WarningKind::UntestedPredicate => 6,
        WarningKind::UnusedTask => 7,
        WarningKind::UnusedAction => 8,
        WarningKind::DeclaredAgain => 9,
    }
}

/// The order of two warnings of one text.
fn compare_places(a: &Warning, b: &Warning) -> Ordering
    ensures { result ≡ place_cmp a.now b.now }
{
    match a.at.place.cmp(&b.at.place) {
        Ordering::Equal => kind_number(a.kind).cmp(&kind_number(b.kind)),
        unequal => unequal,
    }
}

impl PartialEq for Warning {
    ghost use Rattle.hddl_warnings.specs.Order.{warning_cmp};
    ghost use Rattle.hddl_warnings.specs.Laws.{warning_eq-partial};

    ghost eq = { eq_by_cmp warning_cmp };

    ghost laws = { warning_eq-partial };

    fn eq(&self, other: &Warning) -> bool {
        self.cmp(other).is_eq()
    }
}

impl Eq for Warning {
    ghost use Rattle.hddl_warnings.specs.Laws.{warning_eq-laws};

    ghost laws = { warning_eq-laws };
}

impl Ord for Warning {
    ghost use Rattle.hddl_warnings.specs.Order.{warning_cmp};
    ghost use Rattle.hddl_warnings.specs.Laws.{warning_cmp-total};
    ghost use Rattle.std.specs.Prelude.{refl};

    ghost cmp = { warning_cmp };

    ghost total = { warning_cmp-total };

    ghost matches_partial_cmp = { λ x y. refl };

    ghost matches_eq = { λ x y. refl };

    fn cmp(&self, other: &Warning) -> Ordering {
        match source_number(self.at.source).cmp(&source_number(other.at.source)) {
            Ordering::Equal => compare_places(self, other),
            unequal => unequal,
        }
    }
}

impl PartialOrd for Warning {
    ghost use Rattle.hddl_warnings.specs.Order.{warning_cmp};
    ghost use Rattle.hddl_warnings.specs.Laws.{warning_cmp-partial};

    ghost partial_cmp = { as_partial_cmp warning_cmp };

    ghost laws = { warning_cmp-partial };

    fn partial_cmp(&self, other: &Warning) -> Option<Ordering> {
        Some(self.cmp(other))
    }
}
