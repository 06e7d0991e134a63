//! Kinds 03 and 0f, `open_circuit` without and with a key of the padding.
ghost use Rattle.std.specs.Prelude.{◌≡◌, ◌+◌, ◌≤◌, ◌++◌, length, OnOk, OnErr};
ghost use Rattle.tape.specs.Fronts.{FrontIs, FrontMeetsCall, MeetsCall, RestIsShorter};
ghost use Rattle.tape.specs.Kinds.OpenCircuit.{opening_kind, open_circuit_front, padded_circuit_front, opening_front, command_of, open_circuit_record, open_bytes};

use crate::field::field;
use crate::kinds::write_numbered;
use crate::record::{CircuitRequest, CreateCommand, Front, Record};
use cell_codec::command::{CREATE, CREATE_FAST, CREATE2};
use std::alloc::AllocError;
use tr_io::answers::{OpenAnswer, OpenRefusal};
use tr_io::names::ChanNo;

/// How many bytes an opening's channel and Y have.
const HEAD: usize = 28;

/// The kind of an opening's record, with or without a key of the padding.
pub fn opening_kind(pad: Option<[u8; 16]>) -> u8
    ensures { result ≡ opening_kind pad }
{
    match pad {
        Some(_) => 0x0f,
        None => 0x03,
    }
}

/// Reads the fields of a record without a key of the padding.
pub fn read(fields: &[u8]) -> Front<'_>
    ensures front { FrontIs result (open_circuit_front fields.now) }
    ensures meets { FrontMeetsCall result }
    ensures shorter { RestIsShorter result (length fields.now + 1) }
{
    match fields.split_first_chunk::<HEAD>() {
        Some((head, cell)) => opening(head, None, cell),
        None => Front::Cut,
    }
}

/// Reads the fields of a record with a key of the padding.
pub fn read_padded(fields: &[u8]) -> Front<'_>
    ensures front { FrontIs result (padded_circuit_front fields.now) }
    ensures meets { FrontMeetsCall result }
    ensures shorter { RestIsShorter result (length fields.now + 1) }
{
    let Some((head, rest)) = fields.split_first_chunk::<HEAD>() else {
        return Front::Cut;
    };
    match rest.split_first_chunk::<16>() {
        Some((pad, cell)) => opening(head, Some(*pad), cell),
        None => Front::Cut,
    }
}

/// An opening by its channel and Y, the key of its padding, and its cell with what is behind it.
#[tactic(auto, using(crate::proofs::Openings::opened), unfolding(crate::specs::Kinds::OpenCircuit::opening_front))]
fn opening<'a>(head: &[u8; HEAD], pad: Option<[u8; 16]>, cell: &'a [u8]) -> Front<'a>
    ensures front { FrontIs result (opening_front head.now pad cell.now) }
    ensures meets { FrontMeetsCall result }
    ensures shorter { RestIsShorter result (length cell.now + 1) }
{
    if cell.len() < 5 {
        return Front::Cut;
    }
    let Some(command) = command_of(cell[4]) else {
        return Front::Bad;
    };
    let Some((_, rest)) = cell.split_first_chunk::<514>() else {
        return Front::Cut;
    };
    Front::Whole(open_circuit_record(head, pad, command, cell), rest)
}

/// The record of an opening, whose cell is all there.
fn open_circuit_record(
    head: &[u8; HEAD],
    pad: Option<[u8; 16]>,
    command: CreateCommand,
    cell: &[u8],
) -> Record
    requires { 514 ≤ length cell.now }
    ensures fields { result ≡ open_circuit_record head.now pad command cell.now }
    ensures meets { MeetsCall result }
{
    let chan = ChanNo(u64::from_be_bytes(field(head, 0)));
    let request = CircuitRequest {
        id: u32::from_be_bytes(field(cell, 0)),
        command,
        payload: field(cell, 5),
    };
    Record::OpenCircuit(chan, field(head, 8), pad, request)
}

/// The command that asks for a circuit, if this byte is one.
fn command_of(byte: u8) -> Option<CreateCommand>
    ensures { result ≡ command_of byte }
{
    match byte {
        CREATE => Some(CreateCommand::Create),
        CREATE_FAST => Some(CreateCommand::CreateFast),
        CREATE2 => Some(CreateCommand::Create2),
        _ => None,
    }
}

/// Appends the answer of `open_circuit` to a record of this kind.
pub fn write_open(kind: u8, answer: OpenAnswer, out: &mut Vec<u8>) -> Result<(), AllocError>
    ensures ok { OnOk result (out.new.items ≡ out.old.items ++ open_bytes kind answer) }
    ensures err { OnErr result (out.new.items ≡ out.old.items) }
{
    match answer {
        OpenAnswer::Opened(circ) => write_numbered([kind, 0], &circ.0.to_be_bytes(), out),
        OpenAnswer::Refused(OpenRefusal::BadId) => out.extend_from_slice(&[kind, 1]),
        OpenAnswer::Refused(OpenRefusal::InUse) => out.extend_from_slice(&[kind, 2]),
        OpenAnswer::Refused(OpenRefusal::Full(count)) => {
            write_numbered([kind, 3], &count.to_be_bytes(), out)
        }
        OpenAnswer::Refused(OpenRefusal::BadHandshake) => out.extend_from_slice(&[kind, 4]),
        OpenAnswer::Refused(OpenRefusal::NoChannel) => out.extend_from_slice(&[kind, 5]),
        OpenAnswer::Memory => Ok(()),
    }
}
