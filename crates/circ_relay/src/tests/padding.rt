// What stands behind the payload of a body that a circuit packages.

ghost use Rattle.std.specs.Prelude.{◌≤◌, length};

use super::streams::connected;
use super::*;
use stream_edge::Phase;
use tr_io::edges::EdgeEvent;

// AES-128 of the zero key on the block number 1 (NIST SP 800-38A, 6.5, with a counter that begins at 0).
const SECOND_BLOCK: [u8; 16] = [
    0x58, 0xe2, 0xfc, 0xce, 0xfa, 0x7e, 0x30, 0x61, 0x36, 0x7f, 0x1d, 0x57, 0xa4, 0xe7, 0x45, 0x5a,
];

// The END that refuses a BEGIN, from a circuit with this pad key.
fn refusal(alloc: Global, pad: Option<[u8; 16]>) -> Result<[u8; 509], Fail> {
    let rules = rules(alloc)?;
    let mut circuit = padded_circuit(pad, &rules);
    let begin = meant(command::BEGIN, 1, b"no.test:1\0", 0);
    match circuit.forward(alloc, &rules, &begin, RELAY)?.back {
        Some(body) => Ok(body),
        None => Err("nothing is packaged".into()),
    }
}

// The DATA of a stream with these bytes, the second body of a circuit with this pad key.
fn data_body(alloc: Global, pad: Option<[u8; 16]>, bytes: &[u8]) -> Result<[u8; 509], Fail>
    requires some { 1 ≤ length bytes.now }
    requires most { length bytes.now ≤ 498 }
{
    let rules = rules(alloc)?;
    let mut circuit = padded_circuit(pad, &rules);
    let key = connected(&mut circuit, alloc, &rules, 1)?;
    let data = EdgeEvent::Data(Bytes::of(alloc, bytes)?);
    let Some(Phase::Joined) = circuit.phase(key) else {
        return Err("it isn't connected".into());
    };
    let None = circuit.shut(key) else {
        return Err("a window is shut".into());
    };
    match circuit.edge(key, &data).back {
        Some(body) => Ok(body),
        None => Err("nothing is packaged".into()),
    }
}

#[test]
fn padding_is_four_zeros_and_the_keystream(rt: HostRuntime) -> Result<(), Fail> {
    let end = refusal(rt.alloc(), Some([0; 16]))?;
    assert_eq!(rt; end[11], 4);
    assert!(rt; end[12..16] == [0; 4]);
    assert!(rt; end[16..32] == SECOND_BLOCK[..]);

    let data = data_body(rt.alloc(), Some([0; 16]), &[7; 496])?;
    assert!(rt; data[11..507] == [7; 496]);
    assert!(rt; data[507..] == [0; 2]);
    Ok(())
}

#[test]
fn padding_without_a_key_is_zero(rt: HostRuntime) -> Result<(), Fail> {
    let end = refusal(rt.alloc(), None)?;
    assert_eq!(rt; end[11], 4);
    assert!(rt; end[12..] == [0; 497]);

    let data = data_body(rt.alloc(), None, &[7; 1])?;
    assert!(rt; data[12..] == [0; 497]);
    Ok(())
}
