//! Random cells and random bytes, fed in pieces.

ghost use Rattle.std.specs.Prelude.{◌<◌};

use super::write_cells;
use crate::{Body, Bytes, Cell, DecodeFault, Decoder, command, write_cell, write_versions};
use std::alloc::{AllocError, Global};
use std::test::Fail;

/// The next of a row of numbers, by xorshift.
fn next(seed: &mut u64) -> u64 {
    *seed ^= *seed << 13;
    *seed ^= *seed >> 7;
    *seed ^= *seed << 17;
    *seed
}

/// A million random bytes.
fn noise(alloc: Global, seed: &mut u64) -> Result<Vec<u8>, AllocError> {
    let mut bytes = Vec::with_capacity(alloc, 1_000_000)?;
    for _ in 0..125_000 {
        bytes.extend_from_slice(&next(seed).to_le_bytes())?;
    }
    Ok(bytes)
}

/// A thousand random cells, one after another. Payloads of variable length are taken from `noise`.
fn random_cells(alloc: Global, noise: &[u8], seed: &mut u64) -> Result<Vec<u8>, AllocError> {
    let mut cells = Vec::new(alloc);
    for _ in 0..1000 {
        let command = (next(seed) % 256) as u8;
        let body = if command == command::VERSIONS || command >= command::VPADDING {
            let size = (next(seed) % 1000) as usize;
            Body::Var(Bytes::of(alloc, &noise[..size.min(noise.len())])?)
        } else {
            Body::Fixed([command; 509])
        };
        let circ = (next(seed) % 0x1_0000_0000) as u32;
        write_cell(
            &Cell {
                circ,
                command,
                body,
            },
            &mut cells,
        )?;
    }
    Ok(cells)
}

/// VERSIONS, and `bytes` behind it.
fn behind_versions(alloc: Global, bytes: &[u8]) -> Result<Vec<u8>, AllocError> {
    let mut link = Vec::new(alloc);
    write_versions(&[3, 4, 5], &mut link)?;
    link.extend_from_slice(bytes)?;
    Ok(link)
}

/// The cells of `bytes`, written one after another. They are fed in pieces of up to `most` bytes.
fn echo(
    alloc: Global,
    decoder: &mut Decoder,
    bytes: &[u8],
    most: u64,
    seed: &mut u64,
) -> Result<Vec<u8>, DecodeFault>
    requires { 0 < most }
{
    let mut out = Vec::new(alloc);
    let mut rest_bytes = bytes;
    while !rest_bytes.is_empty() {
        let size = (1 + next(seed) % most) as usize;
        let (piece, tail) = rest_bytes.split_at(size.min(rest_bytes.len()));
        write_cells(decoder.feed(piece)?.as_slice(), &mut out)?;
        rest_bytes = tail;
    }
    Ok(out)
}

/// A decoder of a whole link, or of cells alone.
fn decoder(alloc: Global, is_whole_link: bool) -> Decoder {
    if is_whole_link {
        Decoder::starting(alloc)
    } else {
        Decoder::cells_only(alloc)
    }
}

#[test]
fn random_pieces_give_the_cells_of_one_piece(rt: HostRuntime) -> Result<(), Fail> {
    let mut seed = 0x5eed;
    let noise = noise(rt.alloc(), &mut seed)?;
    let cells = random_cells(rt.alloc(), noise.as_slice(), &mut seed)?;
    let noisy_link = behind_versions(rt.alloc(), noise.as_slice())?;
    let link = behind_versions(rt.alloc(), cells.as_slice())?;
    for (is_whole_link, bytes) in [
        (false, noise.as_slice()),
        (false, cells.as_slice()),
        (true, noisy_link.as_slice()),
        (true, link.as_slice()),
    ] {
        let mut whole_decoder = decoder(rt.alloc(), is_whole_link);
        let mut whole_output = Vec::new(rt.alloc());
        write_cells(whole_decoder.feed(bytes)?.as_slice(), &mut whole_output)?;
        assert!(rt; !whole_output.is_empty());
        for most in [1, 30, 600, 5000] {
            let mut piece_decoder = decoder(rt.alloc(), is_whole_link);
            let piece_output = echo(rt.alloc(), &mut piece_decoder, bytes, most, &mut seed)?;
            assert!(rt;
                piece_output.as_slice() == whole_output.as_slice(),
                "pieces of at most {most} bytes"
            );
            assert_eq!(rt; piece_decoder.finish(), whole_decoder.finish());
        }
    }
    let mut decoder = Decoder::cells_only(rt.alloc());
    let cell_output = echo(rt.alloc(), &mut decoder, cells.as_slice(), 600, &mut seed)?;
    assert!(rt; cell_output.as_slice() == cells.as_slice());
    Ok(())
}

#[test]
fn random_bytes_open_no_link(rt: HostRuntime) -> Result<(), Fail> {
    let mut seed = 0x5eed;
    let noise = noise(rt.alloc(), &mut seed)?;
    let fault = Decoder::starting(rt.alloc()).feed(noise.as_slice()).err();
    assert!(rt; matches!(fault, Some(DecodeFault::BadFirst { .. })));
    for most in [1, 30, 600, 5000] {
        let mut decoder = Decoder::starting(rt.alloc());
        let piece_output = echo(rt.alloc(), &mut decoder, noise.as_slice(), most, &mut seed);
        assert_eq!(rt; piece_output.err(), fault);
        assert_eq!(rt; decoder.feed(noise.as_slice()).err(), fault);
        assert_eq!(rt; decoder.finish(), Ok(()));
    }
    Ok(())
}
