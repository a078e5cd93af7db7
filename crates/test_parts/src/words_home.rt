// Words that come home, by their tag and their sender.
use tcc_base::{CoreId, Tid};
use write_back::{Take, judge};

#[test]
fn judges_by_tag_and_sender(rt: HostRuntime) {
    let one = CoreId(1);
    for (owner, tag, from, back_tag, want) in [
        (Some(one), 5, one, 5, Take::Take),
        (Some(one), 5, one, 6, Take::Wait),
        (Some(one), 5, one, 4, Take::Drop),
        (Some(one), 5, CoreId(2), 5, Take::Drop),
        (Some(one), 5, CoreId(2), 6, Take::Wait),
        (None, 5, one, 5, Take::Drop),
        (None, 0, one, 1, Take::Wait),
    ] {
        assert_eq!(rt;
            judge(owner, Tid(tag), from, Tid(back_tag)),
            want,
            "{back_tag}"
        );
    }
}
