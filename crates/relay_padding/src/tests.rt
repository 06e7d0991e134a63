use crate::Padding;
use relay_cell::{command, write_body};
use std::test::Fail;

// AES-128 of the zero key on the block number 1 (NIST SP 800-38A, 6.5, with a counter that begins at 0).
const SECOND_BLOCK: [u8; 16] = [
    0x58, 0xe2, 0xfc, 0xce, 0xfa, 0x7e, 0x30, 0x61, 0x36, 0x7f, 0x1d, 0x57, 0xa4, 0xe7, 0x45, 0x5a,
];

// Four zero bytes stand behind the payload, and behind them the keystream at its offsets.
#[test]
#[tactic(auto, using(tor_spec::proofs::Bodies::relay_body_fits))]
fn a_key_pads_by_its_keystream(rt: HostRuntime) -> Result<(), Fail> {
    let mut padding = Padding::of(Some([0; 16]));
    let mut body = write_body(command::DROP, 0, &[4]);
    padding.put(&mut body);
    assert_eq!(rt; body[11], 4);
    assert!(rt; body[12..16] == [0; 4]);
    assert!(rt; body[16..32] == SECOND_BLOCK[..]);
    Ok(())
}

#[test]
#[tactic(auto, using(tor_spec::proofs::Bodies::relay_body_fits))]
fn without_a_key_nothing_changes(rt: HostRuntime) -> Result<(), Fail> {
    let mut padding = Padding::of(None);
    let plain = write_body(command::DROP, 0, &[4]);
    let mut body = plain;
    padding.put(&mut body);
    assert!(rt; body == plain);
    Ok(())
}
