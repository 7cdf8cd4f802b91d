//! The line of each fault, as a run writes it and as its `Display` says it.

use hddl_check::{At, CheckFault, Source};
use hddl_text::TextFault;
use htn_plan::PlanFault;
use htn_run::{RunFault, Sink, write_fault};
use std::io;
use std::io::ErrorKind;

fn print_fault<R: Print>(rt: &R, fault: RunFault) -> io::Result<()> {
    if write_fault(&mut Sink::new(io::writer(rt)), fault).is_err() {
        return Err(io::Error::from(ErrorKind::WriteZero));
    }
    println!(rt; "{fault}")
}

fn print_text_faults<R: Print>(rt: &R) -> io::Result<()> {
    let faults = [
        TextFault::NotAscii(0),
        TextFault::BadWord(1),
        TextFault::Unclosed(22),
        TextFault::ExtraClose(333),
        TextFault::TooDeep(4_444),
        TextFault::Expected(55_555),
        TextFault::Unsupported(666_666),
        TextFault::TooLong(16_777_216),
        TextFault::OutOfMemory,
    ];
    for fault in faults {
        print_fault(rt, RunFault::Domain(fault))?;
        print_fault(rt, RunFault::Problem(fault))?;
    }
    Ok(())
}

fn print_pair_faults<R: Print>(rt: &R, source: Source, place: usize) -> io::Result<()> {
    let at = At { source, place };
    let faults = [
        CheckFault::Duplicate(at),
        CheckFault::UnknownType(at),
        CheckFault::TypeCycle(at),
        CheckFault::UnknownName(at),
        CheckFault::Arity(at),
        CheckFault::TypeClash(at),
        CheckFault::OrderCycle(at),
        CheckFault::UnknownSubtask(at),
        CheckFault::TooMany(at),
        CheckFault::OutOfMemory,
    ];
    for fault in faults {
        print_fault(rt, RunFault::Check(fault))?;
    }
    Ok(())
}

fn print_plan_faults<R: Print>(rt: &R) -> io::Result<()> {
    let faults = [
        PlanFault::NoStart,
        PlanFault::NoEnd,
        PlanFault::BadLine(1),
        PlanFault::TwoRoots(22),
        PlanFault::NoRoot,
        PlanFault::NumberTooLarge(333),
        PlanFault::NotAscii(4_444),
        PlanFault::TooLong(16_777_216),
        PlanFault::OutOfMemory,
    ];
    for fault in faults {
        print_fault(rt, RunFault::Plan(fault))?;
    }
    Ok(())
}

/// Prints the lines of the faults of texts, of a domain with a problem, of plans and of runs.
pub fn print_faults<R: Print>(rt: &R) -> io::Result<()> {
    print_text_faults(rt)?;
    print_pair_faults(rt, Source::Domain, 10)?;
    print_pair_faults(rt, Source::Problem, 0)?;
    print_plan_faults(rt)?;
    print_fault(rt, RunFault::OutOfMemory)?;
    print_fault(rt, RunFault::NoThread)?;
    print_fault(rt, RunFault::Output)
}
