//! Warnings of objects.
ghost use Rattle.std.specs.Prelude.{◌≡◌, ◌⊎◌, ◌++◌, [], List, OnOk};
ghost use Rattle.hddl_meaning.specs.declared.fault.Source.TheVariants as side;
ghost use Rattle.hddl_meaning.specs.Mentions.{Mention as MentionText, Text, texts};
ghost use Rattle.hddl_warnings.specs.Known.{Knows};
ghost use Rattle.hddl_warnings.specs.Tells.{Tells};
ghost use Rattle.hddl_warnings.specs.declared.warning.WarningKind.TheVariants as kind;
ghost use Rattle.hddl_warnings.specs.Warnings.{IsAgain, IsDeclaredAgain};

use crate::known::learn;
use crate::tell::tell_if;
use crate::warning::{Warning, WarningKind};
use hddl_meaning::{At, Source};
use hddl_scope::{Mention, Numbers, names_in};
use hddl_words::{DomainText, ProblemText};
use std::alloc::{AllocError, Global};

/// Warns of each name that is known or stands before, and adds the names to those that are known.
fn tell_again(
    alloc: Global,
    out: &mut Vec<Warning>,
    known: &mut Numbers,
    source: Source,
    declared: &[Mention<'_>],
) -> Result<(), AllocError>
    ensures told { OnOk result ((before : List Text) → Knows known.old before
        → Tells out.old.items out.new.items (λ w. (m : MentionText) × IsAgain before declared.now m
        × (w ≡ record { kind = kind.DeclaredAgain; at = record { source = source; place = m.place } }))) }
    ensures known { OnOk result ((before : List Text) → Knows known.old before → Knows known.new (before ++ texts declared.now)) }
{
    for mention in declared {
        let is_told = known.get(mention.text()).is_some();
        let warning = Warning {
            kind: WarningKind::DeclaredAgain,
            at: At {
                source,
                place: mention.place(),
            },
        };
        tell_if(out, is_told, warning)?;
        learn(alloc, known, mention.text())?;
    }
    Ok(())
}

/// Warns of names of two lists that stand before, in the same list or in the first.
fn tell_both(
    alloc: Global,
    out: &mut Vec<Warning>,
    constants: &[Mention<'_>],
    objects: &[Mention<'_>],
) -> Result<(), AllocError>
    ensures { OnOk result (Tells out.old.items out.new.items (λ w.
        ((m : MentionText) × IsAgain [] constants.now m × (w ≡ record { kind = kind.DeclaredAgain; at = record { source = side.Domain; place = m.place } }))
        ⊎ ((m : MentionText) × IsAgain (texts constants.now) objects.now m
        × (w ≡ record { kind = kind.DeclaredAgain; at = record { source = side.Problem; place = m.place } })))) }
{
    let count = constants.len().saturating_add(objects.len());
    let mut known = Numbers::with_capacity(alloc, count)?;
    tell_again(alloc, out, &mut known, Source::Domain, constants)?;
    tell_again(alloc, out, &mut known, Source::Problem, objects)?;
    Ok(())
}

/// Warns of constants and objects that are declared before.
pub(crate) fn tell_objects(
    alloc: Global,
    out: &mut Vec<Warning>,
    domain: &DomainText,
    problem: &ProblemText,
) -> Result<(), AllocError>
    ensures { OnOk result (Tells out.old.items out.new.items (IsDeclaredAgain domain.now problem.now)) }
{
    let constants = names_in(alloc, domain.constants.as_slice())?;
    let objects = names_in(alloc, problem.objects.as_slice())?;
    tell_both(alloc, out, &constants, &objects)?;
    Ok(())
}
