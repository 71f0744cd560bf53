//! Sets of indices.

use cap_galg_indices::Indices;
use std::test::Fail;

// Whether a set has each of these indices.
fn has_all(set: &Indices, indices: &[u64]) -> bool {
    indices.iter().all(|index| set.has(*index))
}

// Of tickets: all from 2 on, which nobody has taken, and the two before that others hold.
#[test]
fn tickets_compose_to_all_indices(rt: HostRuntime) -> Result<(), Fail> {
    let alloc = rt.alloc();
    let untaken = Indices::from(alloc, 2)?;
    let apart = untaken
        .compose(alloc, &Indices::at(alloc, 0)?)?
        .ok_or("disjoint")?;
    assert!(rt; has_all(&apart, &[0, 2, u64::MAX]) && !apart.has(1));
    assert!(rt; untaken.le(&apart) && !apart.is_full());
    let all = apart
        .compose(alloc, &Indices::at(alloc, 1)?)?
        .ok_or("disjoint")?;
    assert!(rt; all.is_full() && !all.le(&apart));
    Ok(())
}

#[test]
fn sets_that_meet_do_not_compose(rt: HostRuntime) -> Result<(), Fail> {
    let alloc = rt.alloc();
    let untaken = Indices::from(alloc, 2)?;
    let taken = Indices::at(alloc, 7)?;
    assert!(rt; untaken.compose(alloc, &taken)?.is_none());
    Ok(())
}

#[test]
fn the_empty_set_is_the_unit(rt: HostRuntime) -> Result<(), Fail> {
    let alloc = rt.alloc();
    let none = Indices::new(alloc);
    let last = Indices::at(alloc, u64::MAX)?;
    let same = last.compose(alloc, &none)?.ok_or("disjoint")?;
    let again = same.copy(alloc)?;
    assert!(rt; none.is_empty() && again.le(&last) && last.le(&again));
    Ok(())
}
