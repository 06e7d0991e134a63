//! As many circuits, and as many refusals that wait, as there may be.

use crate::tests::leaving::{destroy_leaves, nothing_leaves};
use crate::tests::opening::circ_id;
use crate::tests::switch::TestSwitch;
use cell_codec::destroy_reason;
use tr_io::answers::{BackAnswer, OpenAnswer, OpenRefusal};
use tr_io::names::CircNo;

#[test]
fn the_513th_circuit_finds_the_switch_full(rt: HostRuntime) {
    let mut switch = TestSwitch::with_channel(&rt);
    for number in 0..512_u32 {
        let answer = switch.open(&rt, circ_id(number));
        assert_eq!(rt; answer, OpenAnswer::Opened(CircNo(u64::from(number))));
    }
    let one_more = 0x8000_0201;
    let full = OpenAnswer::Refused(OpenRefusal::Full(512));
    assert_eq!(rt; switch.open(&rt, one_more), full);
    destroy_leaves(&rt, &mut switch, one_more, destroy_reason::RESOURCE_LIMIT);
    // A circuit that is torn down makes room for another.
    let reason = destroy_reason::CHANNEL_CLOSED;
    assert_eq!(rt;
        switch.tear_down(&rt, CircNo(7), reason),
        BackAnswer::Down(reason)
    );
    assert_eq!(rt; switch.open(&rt, one_more), OpenAnswer::Opened(CircNo(512)));
}

#[test]
fn the_513th_refusal_sends_nothing(rt: HostRuntime) {
    let mut switch = TestSwitch::with_channel(&rt);
    // The peer opened the channel, so the highest bit of its CircIDs is set.
    for id in 1..514_u32 {
        let bad_id = OpenAnswer::Refused(OpenRefusal::BadId);
        assert_eq!(rt; switch.open(&rt, id), bad_id);
    }
    for id in 1..513_u32 {
        destroy_leaves(&rt, &mut switch, id, destroy_reason::PROTOCOL);
    }
    nothing_leaves(&rt, &mut switch);
}
