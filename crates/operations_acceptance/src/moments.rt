use desk_time::{FIRST, SHOWN_LAST, read_shown, show};

#[test]
fn moments_are_read_up_to_the_last_that_is_shown(rt: HostRuntime) {
    assert!(rt; show(SHOWN_LAST).as_slice() == b"2101-03-11T16:00Z".as_slice());
    for (text, wanted) in [
        (b"2101-03-11T16:00Z".as_slice(), Some(69_000_000)),
        (b"2101-03-11T16:01Z", None),
        (b"2101-03-12T00:00Z", None),
        (b"2099-06-01T12:34Z", Some(68_066_674)),
        (b"2000-01-01T00:00Z", Some(FIRST)),
        (b"1999-12-31T23:59Z", None),
        (b"2101-02-29T00:00Z", None),
        (b"2100-1-01T00:00Z", None),
        (b"2100-01-01T00:00", None),
        (b"2100-01-01t00:00Z", None),
    ] {
        assert!(rt; read_shown(text) == wanted);
    }
}
