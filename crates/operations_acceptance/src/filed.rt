use crate::changes::one_leg;
use desk_io::OutOfMemory;
use redispatch::{Filed, Planned};
use small_airline::may_be_checked;
use std::alloc::Global;
use std::test::Fail;

// Whether the list made of one filed plan has that plan, and no plan for another release.
fn is_made_again(alloc: Global) -> Result<bool, OutOfMemory> {
    let plan = one_leg(alloc)?;
    if !may_be_checked(&plan) {
        return Ok(false);
    }
    let mut filed = Vec::new(alloc);
    filed.push(Filed {
        release: 7,
        leg: 1,
        plan,
    })?;
    let planned = Planned::from_filed(alloc, filed)?;
    Ok(planned.find(7).is_some() && planned.find(8).is_none())
}

#[test]
fn a_list_of_final_plans_is_made_again(rt: HostRuntime) -> Result<(), Fail> {
    assert!(rt; is_made_again(rt.alloc())?);
    Ok(())
}
