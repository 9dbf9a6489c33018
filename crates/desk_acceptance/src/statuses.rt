use asks::{Refusal, Reply};
use desk_state::Said;
use service::status_of;

#[test]
fn where_no_more_is_held_the_status_is_507(rt: HostRuntime) {
    for refusal in [
        Refusal::ReportsFull { held: 200_000 },
        Refusal::ReleasesFull { held: 20_000 },
        Refusal::DeferralsFull { held: 50_000 },
    ] {
        assert!(rt; status_of(&Said::Reply(Reply::Refused(refusal))) == 507);
    }
}
