//! The places of the open nodes.
ghost use Rattle.std.specs.Prelude.{◌≡◌, ◌+◌, ◌<◌, ◌∷◌, ◌++◌, [], IfOk, OnOk, get_or, length};
ghost use Rattle.htn_model.specs.Choice.{splice};
ghost use Rattle.htn_walk.specs.Places.{child_places, open_places};

use std::alloc::{AllocError, Global};

/// The place of a child: one position more.
fn child_place(alloc: Global, place: &[usize], position: usize) -> Result<Vec<usize>, AllocError>
    ensures { IfOk result (λ p. p.items ≡ place.now ++ position ∷ []) }
{
    let mut child = Vec::new(alloc);
    child.extend_from_slice(place)?;
    child.push(position)?;
    Ok(child)
}

/// The places of `count` children, from the last to the first. The parent's list is reused for the last child.
pub(crate) fn child_places(
    alloc: Global,
    mut place: Vec<usize>,
    count: usize,
) -> Result<Vec<Vec<usize>>, AllocError>
    ensures { IfOk result (λ l. open_places l.items ≡ child_places place.items 0 count) }
{
    let mut places = Vec::new(alloc);
    let Some(last) = count.checked_sub(1) else {
        return Ok(places);
    };
    for position in 0..last {
        places.push(child_place(alloc, &place, position)?)?;
    }
    place.push(last)?;
    places.push(place)?;
    places.reverse();
    Ok(places)
}

/// Replaces the place of an open node by the places of its `count` children. The places of later open nodes are not
/// moved.
pub(crate) fn open_children(
    alloc: Global,
    places: &mut Vec<Vec<usize>>,
    position: usize,
    count: usize,
) -> Result<(), AllocError>
    requires { position < length places.old.items }
    ensures { OnOk result (open_places places.new.items
        ≡ splice position (child_places (get_or (open_places places.old.items) position []) 0 count) (open_places places.old.items)) }
{
    let at = places.len() - 1 - position;
    let mut earlier = places.split_off(at + 1)?;
    let place = places.remove(at);
    let mut children = child_places(alloc, place, count)?;
    places.append(&mut children)?;
    places.append(&mut earlier)?;
    Ok(())
}

/// Removes and returns the place of an open node. The places of later open nodes are not moved.
pub(crate) fn take_place(places: &mut Vec<Vec<usize>>, position: usize) -> Vec<usize>
    requires { position < length places.old.items }
    ensures place { result.items ≡ get_or (open_places places.old.items) position [] }
    ensures left { open_places places.new.items ≡ splice position [] (open_places places.old.items) }
{
    places.remove(places.len() - 1 - position)
}
