// SENDMEs of the circuit against the running digests of what it packaged (proposal 289).

ghost use Rattle.std.specs.Prelude.{◌<◌, ◌≤◌, ◌^◌, length};

use super::streams::{connected, send};
use super::*;
use stream_edge::Phase;
use tr_io::answers::ShutWhy;

// SHA-1 of 20 zero bytes and the bodies that a circuit packages, their Digests as zeros: CONNECTED for
// StreamID 1, and then DATA for it with the byte 7, up to the 99th, the 100th and the 200th. Computed
// with Python's hashlib.
const NINETY_NINTH: [u8; 20] = [
    0xc0, 0xe1, 0xe2, 0x42, 0xdc, 0x71, 0x0a, 0x28, 0xb1, 0x32, 0x59, 0xa8, 0xe1, 0xbc, 0xdf, 0x10,
    0x48, 0xb3, 0x94, 0x7d,
];

const HUNDREDTH: [u8; 20] = [
    0x2c, 0xcb, 0x37, 0x8e, 0xe6, 0xa6, 0xc9, 0xe4, 0x6b, 0xfb, 0xb7, 0xef, 0xab, 0x83, 0xe3, 0x92,
    0x69, 0x54, 0x79, 0x11,
];

const TWO_HUNDREDTH: [u8; 20] = [
    0x8a, 0xf6, 0x75, 0xa8, 0x1f, 0x50, 0x14, 0x31, 0x35, 0xf4, 0xa2, 0x8c, 0xf2, 0x85, 0x52, 0xf0,
    0xf2, 0x87, 0x1e, 0x06,
];

// Version 1, and a digest of 20 bytes.
fn proof(digest: [u8; 20]) -> [u8; 23] {
    let mut payload = [0; 23];
    payload[..3].copy_from_slice(&[1, 0, 20]);
    payload[3..].copy_from_slice(&digest);
    payload
}

// What a circuit does at its SENDME with this payload, behind so many DATA.
fn answered(alloc: Global, data_count: u64, payload: &[u8]) -> Result<Effects, Fail>
    requires count { data_count < 2 ^ 16 }
    requires short { length payload.now ≤ 498 }
{
    let rules = rules(alloc)?;
    let mut circuit = circuit(&rules);
    let key = connected(&mut circuit, alloc, &rules, 1)?;
    let _count = send(&mut circuit, alloc, key, data_count)?;
    let sendme = meant(command::SENDME, 0, payload, 0);
    Ok(circuit.forward(alloc, &rules, &sendme, RELAY)?)
}

// Whether the circuit closes with reason 1, PROTOCOL, and does nothing else.
fn closes(effects: &Effects) -> bool {
    effects.close == Some(1)
        && effects.back.is_none()
        && effects.forth.is_none()
        && effects.edge.is_none()
        && effects.dial.is_none()
        && !effects.cut
}

#[test]
fn a_right_proof_raises_the_window(rt: HostRuntime) -> Result<(), Fail> {
    let rules = rules(rt.alloc())?;
    let mut circuit = circuit(&rules);
    let first = connected(&mut circuit, rt.alloc(), &rules, 1)?;
    assert_eq!(rt; send(&mut circuit, rt.alloc(), first, 501)?, 500);
    let second = connected(&mut circuit, rt.alloc(), &rules, 2)?;
    assert_eq!(rt; send(&mut circuit, rt.alloc(), second, 499)?, 499);
    // Its own window has room for 500 DATA, the circuit's for one more.
    let third = connected(&mut circuit, rt.alloc(), &rules, 3)?;
    assert_eq!(rt; send(&mut circuit, rt.alloc(), third, 501)?, 1);

    let first_hundred = meant(command::SENDME, 0, &proof(HUNDREDTH), 0);
    let effects = circuit.forward(rt.alloc(), &rules, &first_hundred, RELAY)?;
    assert!(rt; effects.close.is_none() && effects.back.is_none());
    assert_eq!(rt; send(&mut circuit, rt.alloc(), third, 501)?, 100);

    let second_hundred = meant(command::SENDME, 0, &proof(TWO_HUNDREDTH), 0);
    let effects = circuit.forward(rt.alloc(), &rules, &second_hundred, RELAY)?;
    assert!(rt; effects.close.is_none() && effects.back.is_none());
    assert_eq!(rt; send(&mut circuit, rt.alloc(), third, 501)?, 100);
    Ok(())
}

#[test]
fn a_right_proof_does_not_close(rt: HostRuntime) -> Result<(), Fail> {
    let mut longer = [9; 24];
    longer[..23].copy_from_slice(&proof(HUNDREDTH));
    assert_eq!(rt; answered(rt.alloc(), 100, &proof(HUNDREDTH))?.close, None);
    assert_eq!(rt; answered(rt.alloc(), 200, &proof(HUNDREDTH))?.close, None);
    assert_eq!(rt; answered(rt.alloc(), 100, &longer)?.close, None);
    Ok(())
}

#[test]
fn other_proofs_close(rt: HostRuntime) -> Result<(), Fail> {
    let mut wrong_first_byte = HUNDREDTH;
    wrong_first_byte[0] ^= 1;
    let mut wrong_last_byte = HUNDREDTH;
    wrong_last_byte[19] ^= 0x80;
    for digest in [wrong_first_byte, wrong_last_byte, [0; 20], NINETY_NINTH] {
        assert!(rt;
            closes(&answered(rt.alloc(), 100, &proof(digest))?),
            "{digest:?}"
        );
    }
    // The second hundred's before the first's, and the first before there are a hundred DATA.
    assert!(rt; closes(&answered(rt.alloc(), 200, &proof(TWO_HUNDREDTH))?));
    assert!(rt; closes(&answered(rt.alloc(), 99, &proof(NINETY_NINTH))?));
    Ok(())
}

#[test]
fn sendmes_of_another_form_close(rt: HostRuntime) -> Result<(), Fail> {
    let mut version_0 = proof(HUNDREDTH);
    version_0[0] = 0;
    let mut digest_of_19 = proof(HUNDREDTH);
    digest_of_19[2] = 19;
    for payload in [version_0, digest_of_19] {
        assert!(rt;
            closes(&answered(rt.alloc(), 100, &payload)?),
            "{payload:?}"
        );
    }
    assert!(rt; closes(&answered(rt.alloc(), 100, &proof(HUNDREDTH)[..22])?));
    assert!(rt; closes(&answered(rt.alloc(), 100, &[])?));
    Ok(())
}

#[test]
fn windows_are_those_of_the_rules(rt: HostRuntime) -> Result<(), Fail> {
    for least in 0..2u8 {
        let rules = rules_of(rt.alloc(), 100, least)?;
        let mut circuit = circuit(&rules);
        let key = connected(&mut circuit, rt.alloc(), &rules, 1)?;
        assert_eq!(rt; send(&mut circuit, rt.alloc(), key, 101)?, 100);
        let Some(Phase::Joined) = circuit.phase(key) else {
            return Err("it isn't connected".into());
        };
        assert_eq!(rt; circuit.shut(key), Some((ShutWhy::Circuit, 100)));

        let empty_sendme = meant(command::SENDME, 0, &[], 0);
        let first_effects = circuit.forward(rt.alloc(), &rules, &empty_sendme, RELAY)?;
        if least == 1 {
            assert!(rt; closes(&first_effects));
        } else {
            assert!(rt; first_effects.close.is_none() && first_effects.back.is_none());
            assert_eq!(rt; send(&mut circuit, rt.alloc(), key, 1)?, 1);
            let second_effects = circuit.forward(rt.alloc(), &rules, &empty_sendme, RELAY)?;
            assert!(rt; closes(&second_effects));
        }
    }
    Ok(())
}
