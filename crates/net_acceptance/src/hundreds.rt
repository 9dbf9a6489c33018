use crate::{Record, added_by_two};
use std::test::Fail;

fn count_of(record: &Record, lane: u32) -> usize {
    record.marks.iter().filter(|mark| mark.lane == lane).count()
}

#[test]
fn two_threads_add_a_hundred_each(rt: HostRuntime) -> Result<(), Fail> {
    let first = Vec::from_elem(rt.alloc(), 7u64, 100)?;
    let second = Vec::from_elem(rt.alloc(), 9u64, 100)?;
    let Ok((record, one, two)) = added_by_two(&rt, rt.alloc(), first.as_slice(), second.as_slice())
    else {
        panic!(rt; "no memory");
    };
    assert!(rt; one == 100 && two == 100 && record.marks.len() == 200);
    assert!(rt; count_of(&record, 1) == 100 && count_of(&record, 2) == 100);
    Ok(())
}
