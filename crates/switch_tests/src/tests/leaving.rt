//! The next cell that leaves.

use crate::tests::client::Client;
use crate::tests::opening::circ_id;
use crate::tests::switch::TestSwitch;
use cell_codec::command;
use relay_cell::{end_body, stream_end};
use std::process::Abort;

/// The replies to the openings of both circuits leave.
pub fn replies_leave(rt: &impl Abort, switch: &mut TestSwitch) {
    let first = switch.next_cell(rt).expect(rt, "a reply");
    assert_eq!(rt;
        (first.circ, first.command),
        (circ_id(0), command::CREATED_FAST)
    );
    let second = switch.next_cell(rt).expect(rt, "a reply");
    assert_eq!(rt;
        (second.circ, second.command),
        (circ_id(1), command::CREATED_FAST)
    );
}

/// A DESTROY at this CircID, with this reason, leaves.
pub fn destroy_leaves(rt: &impl Abort, switch: &mut TestSwitch, id: u32, reason: u8) {
    let destroy = switch.next_cell(rt).expect(rt, "a DESTROY");
    assert_eq!(rt; (destroy.circ, destroy.command), (id, command::DESTROY));
    assert!(rt; matches!(destroy.body.payload(), [first, 0, ..] if *first == reason));
}

/// The END that answers the client's BEGIN of this stream, whose name isn't allowed, leaves.
pub fn end_leaves(rt: &impl Abort, switch: &mut TestSwitch, client: &mut Client, stream: u16) {
    let end = end_body(stream, stream_end::EXIT_POLICY);
    assert_eq!(rt; client.receive(rt, switch), end);
}

/// No cell leaves.
pub fn nothing_leaves(rt: &impl Abort, switch: &mut TestSwitch) {
    assert!(rt; switch.next_cell(rt).is_none());
}
