//! Openings by tor-spec, with their bytes written out. SHA-1 was computed with Python's hashlib.
ghost use Rattle.std.specs.Prelude.{◌≡◌, ◌≤◌, length, IsTrue, Some, false};
ghost use Rattle.cell_codec.specs.Cells.{is_var};
ghost use Rattle.crypto_spec.specs.KeyDerivation.{kdf_tor};
ghost use Rattle.kdf_tor.specs.HopKeys.{layer_keys_of};
ghost use Rattle.tor_spec.specs.CellCommands.{asks_for_circuit};

use super::*;
use cell_codec::{Body, Bytes, Cell};
use kdf_tor::derive;
use std::alloc::{AllocError, Global};
use std::test::Fail;

const CIRCUIT: u32 = 0x8000_0001;

/// SHA-1 of 41 zero bytes: KH where X and Y are zero.
const KEY_CHECK: [u8; 20] = [
    0x66, 0x9b, 0x1c, 0x85, 0xec, 0xba, 0xfe, 0x23, 0xc9, 0x99, 0x10, 0x0f, 0x55, 0xa2, 0x3e, 0x06,
    0xbf, 0x59, 0xea, 0xd7,
];

/// A handshake that answers the client's half with itself.
struct EchoHandshake;

impl Handshake for EchoHandshake {
    ghost answer_to = { λ _ _ hdata y. Some (record { reply = hdata; keys = layer_keys_of (kdf_tor y y) }) };

    fn answer(
        &self,
        alloc: Global,
        _: u16,
        hdata: &[u8],
        y: &[u8; 20],
    ) -> Result<Answered, AnswerFault> {
        Ok(Answered {
            reply: Bytes::of(alloc, hdata)?,
            keys: derive(y, y).layer,
        })
    }
}

/// The opening that this command asks for with these four bytes and zeros behind them, where Y is
/// zero.
fn opened<H: Handshake>(
    alloc: Global,
    command: u8,
    front: [u8; 4],
    hs: &H,
) -> Result<Opening, AllocError>
    requires { IsTrue (asks_for_circuit command) }
{
    let mut payload = [0; 509];
    payload[..4].copy_from_slice(&front);
    let cell = Cell {
        circ: CIRCUIT,
        command,
        body: Body::Fixed(payload),
    };
    opening_of(alloc, &cell, hs, &[0; 20], None)
}

/// Whether the reply is a cell with this command and these fields, with zeros behind them, on the
/// circuit that asked.
fn is_reply(reply: &Cell, command: u8, fields: &[u8]) -> bool {
    let payload = reply.body.payload();
    let Some((front, rest)) = payload.split_at_checked(fields.len()) else {
        return false;
    };
    reply.circ == CIRCUIT
        && reply.command == command
        && payload.len() == 509
        && front == fields
        && rest.iter().all(|byte| *byte == 0)
}

#[test]
fn create_fast_is_answered(rt: HostRuntime) -> Result<(), Fail> {
    let opening = opened(rt.alloc(), 5, [0; 4], &FastHandshake)?;
    let mut fields = [0; 40];
    fields[20..].copy_from_slice(&KEY_CHECK);
    assert!(rt; is_reply(&opening.reply, 6, &fields));
    assert_eq!(rt; opening.keys, Some(derive(&[0; 20], &[0; 20]).layer));
    Ok(())
}

#[test]
fn create2_is_answered(rt: HostRuntime) -> Result<(), Fail> {
    let opening = opened(rt.alloc(), 10, [0xff, 0x01, 0, 20], &FastHandshake)?;
    let mut fields = [0; 42];
    fields[1] = 40;
    fields[22..].copy_from_slice(&KEY_CHECK);
    assert!(rt; is_reply(&opening.reply, 11, &fields));
    assert_eq!(rt; opening.keys, Some(derive(&[0; 20], &[0; 20]).layer));
    Ok(())
}

#[test]
fn bad_openings_are_refused(rt: HostRuntime) -> Result<(), Fail> {
    let create = opened(rt.alloc(), 1, [0; 4], &FastHandshake)?;
    assert!(rt; create.keys.is_none() && is_reply(&create.reply, 4, &[1]));

    // HTYPE 0002; HLEN 506, more than there is room for; HDATA of 19 and of 21 bytes.
    let bad = [
        [0, 2, 0, 20],
        [0xff, 0x01, 1, 250],
        [0xff, 0x01, 0, 19],
        [0xff, 0x01, 0, 21],
    ];
    for front in bad {
        let opening = opened(rt.alloc(), 10, front, &FastHandshake)?;
        assert!(rt;
            opening.keys.is_none() && is_reply(&opening.reply, 4, &[1]),
            "{front:?}"
        );
    }
    Ok(())
}

#[test]
fn long_answers_are_refused(rt: HostRuntime) -> Result<(), Fail> {
    // HLEN 496, 497 and 505: CREATED2 carries the first alone.
    let longest = opened(rt.alloc(), 10, [0, 0, 1, 240], &EchoHandshake)?;
    assert!(rt; longest.keys.is_some() && is_reply(&longest.reply, 11, &[1, 240]));
    for front in [[0, 0, 1, 241], [0, 0, 1, 249]] {
        let opening = opened(rt.alloc(), 10, front, &EchoHandshake)?;
        assert!(rt;
            opening.keys.is_none() && is_reply(&opening.reply, 4, &[1]),
            "{front:?}"
        );
    }
    Ok(())
}
