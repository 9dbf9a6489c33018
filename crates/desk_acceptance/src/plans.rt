use asks::plan_text;
use desk_io::OutOfMemory;
use desk_json::{PlanText, read_plan};
use std::alloc::Global;
use std::test::Fail;

// A plan of one leg.
const ONE: &str =
    r#"{"captain":"C7","flight":"DK101","kind":"domestic","legs":[{"alternates":[{"fuel":3000,"minutes":35,"station":"KPHL"}],"burn":12000,"eta":"2025-03-12T19:00Z","etd":"2025-03-12T18:00Z","extra":0,"from":"KBOS","minimum":19500,"minutes":55,"onboard":20000,"takeoff_alternate":null,"to":"KJFK"}],"tail":"N801DK"}"#;

// What stands before and after the legs of a plan, and a leg of three alternates, all as long as may be.
const FRONT: &str = r#"{"captain":"CAPTAIN789abcdef","flight":"DK345678","kind":"flag","legs":["#;

const LEG: &str =
    r#"{"alternates":[{"fuel":4294967295,"minutes":4294967295,"station":"KPHL"},{"fuel":4294967295,"minutes":4294967295,"station":"KBOS"},{"fuel":4294967295,"minutes":4294967295,"station":"KJFK"}],"burn":4294967295,"eta":"2099-12-31T23:59Z","etd":"2099-12-31T23:58Z","extra":4294967295,"from":"EINN","minimum":4294967295,"minutes":4294967295,"onboard":4294967295,"takeoff_alternate":{"minutes":4294967295,"station":"EINN"},"to":"EGLL"}"#;

const BACK: &str = r#"],"tail":"N9-45678"}"#;

// A plan of so many legs.
fn plan_of(alloc: Global, legs: usize) -> Result<Vec<u8>, OutOfMemory> {
    let mut text = Vec::from_slice(alloc, FRONT.as_bytes())?;
    for i in 0..legs {
        if i > 0 {
            text.push(b',')?;
        }
        text.extend_from_slice(LEG.as_bytes())?;
    }
    text.extend_from_slice(BACK.as_bytes())?;
    Ok(text)
}

// Whether a text is that of a plan of so many legs, which has this text.
fn is_text_of(alloc: Global, text: &[u8], legs: usize) -> Result<bool, OutOfMemory> {
    match read_plan(alloc, text) {
        Ok(plan) => {
            Ok(plan.legs.as_slice().len() == legs && plan_text(alloc, &plan)?.bytes() == text)
        }
        Err(PlanText::NotPlan) => Ok(false),
        Err(PlanText::OutOfMemory) => Err(OutOfMemory),
    }
}

#[test]
fn the_text_of_a_plan_is_read_and_written_again(rt: HostRuntime) -> Result<(), Fail> {
    assert!(rt; is_text_of(rt.alloc(), ONE.as_bytes(), 1)?);
    for legs in [8, 1_000] {
        let text = plan_of(rt.alloc(), legs)?;
        assert!(rt; is_text_of(rt.alloc(), &text, legs)?, "{legs}");
    }
    Ok(())
}
