//! Plan texts: what is read of one, the faults of long ones, and outputs that fail.

use crate::text_answers::{Reader, expect_run};
use plan_text::{
    ActionLine, DecompositionLine, LinePlaces, MAX_BYTES, PlanFault, PlanFile, Sink, line_places,
    read_plan, write_plan,
};
use std::alloc::{AllocError, Global};
use std::io;
use std::io::Write;

/// A plan of the road domain, as it is written.
const ROAD: &str = "==>
0 drive t1 a b
1 drive t1 b c
root 2
2 go t1 c -> m-step 0 3
3 go t1 c -> m-step 1 4
4 go t1 c -> m-stay
<==
";

fn is_drive(action: &ActionLine) -> bool {
    action.id() == 0
        && action.name().as_bytes() == b"drive".as_slice()
        && action.arguments().len() == 3
}

fn is_step(line: &DecompositionLine) -> bool {
    line.id() == 2
        && line.task().as_bytes() == b"go".as_slice()
        && line.arguments().len() == 2
        && line.method().as_bytes() == b"m-step".as_slice()
        && line.children() == [0, 3].as_slice()
}

fn is_road(file: &PlanFile) -> bool {
    match (file.actions(), file.decompositions()) {
        ([drive, _], [step, _, _]) => {
            file.roots() == [2].as_slice() && is_drive(drive) && is_step(step)
        }
        _ => false,
    }
}

fn are_places(places: &LinePlaces) -> bool {
    places.actions.as_slice() == [4, 19].as_slice()
        && places.roots.as_slice() == [34].as_slice()
        && places.decompositions.as_slice() == [41, 65, 89].as_slice()
}

#[test]
fn road(rt: HostRuntime) -> Result<(), PlanFault> {
    assert!(rt; ROAD.len() == 113);
    let file = read_plan(rt.alloc(), ROAD.as_bytes())?;
    assert!(rt; is_road(&file), "the lines");
    let places = line_places(rt.alloc(), ROAD.as_bytes())?;
    assert!(rt;
        places.is_some_and(|places| are_places(&places)),
        "their places"
    );
    Ok(())
}

#[test]
fn refuses_long_texts(rt: HostRuntime) -> Result<(), AllocError> {
    let (alloc, reader) = (rt.alloc(), Reader::Plan);
    expect_run(&rt, alloc, reader, (b' ', MAX_BYTES), "NoStart")?;
    expect_run(
        &rt,
        alloc,
        reader,
        (b' ', MAX_BYTES + 1),
        "TooLong at 16777216",
    )
}

/// What the first write to an output does.
#[derive(Clone, Copy)]
enum First {
    Takes,
    TakesNothing,
    Fails,
}

/// A writer that takes at most `step` bytes in one write, and `room` in all.
#[derive(Drop)]
struct Narrow {
    taken: Vec<u8>,
    first: First,
    step: usize,
    room: usize,
}

impl Write for Narrow {
    fn write(&mut self, bytes: &[u8]) -> io::Result<usize> {
        let first = self.first;
        self.first = First::Takes;
        match first {
            First::Takes => {
                let count = bytes.len().min(self.step).min(self.room);
                self.taken.extend_from_slice(&bytes[..count])?;
                self.room -= count;
                Ok(count)
            }
            First::TakesNothing => Ok(0),
            First::Fails => Err(io::Error::from(io::ErrorKind::Other)),
        }
    }

    fn flush(&mut self) -> io::Result<()> {
        Ok(())
    }
}

/// Whether an output whose first write takes nothing has failed from then on.
fn stays_failed(alloc: Global, file: &PlanFile, first: First) -> bool {
    let mut sink = Sink::new(Narrow {
        taken: Vec::new(alloc),
        first,
        step: 1000,
        room: 1000,
    });
    let is_refused = write_plan(file, &mut sink).is_err() && sink.has_failed();
    let is_refused_again = write_plan(file, &mut sink).is_err() && sink.has_failed();
    is_refused && is_refused_again && sink.into_inner().taken.is_empty()
}

#[test]
fn outputs_stay_failed(rt: HostRuntime) -> Result<(), PlanFault> {
    let file = read_plan(rt.alloc(), ROAD.as_bytes())?;
    assert!(rt;
        stays_failed(rt.alloc(), &file, First::TakesNothing),
        "no byte"
    );
    assert!(rt; stays_failed(rt.alloc(), &file, First::Fails), "an error");
    Ok(())
}
