//! Feeds a decoder by the command line, for `bench/run cells`, which times it: the bytes of a thousand
//! RELAY cells, again and again, in pieces of one size.
#![tactic(auto)]

ghost use Rattle.std.specs.Prelude.{◌<◌};

use cell_codec::{Body, Cell, DecodeFault, Decoder, write_cell};
use std::alloc::{AllocError, Global};
use std::process::ExitCode;
use std::{env, io};

const USAGE: &str = "usage: cell_bench BYTES COUNT";

/// What to feed.
#[derive(Clone, Copy)]
struct Request {
    /// The bytes of a piece.
    size: usize,
    /// How often the thousand cells go by.
    count: u32,
    ghost not_empty: { 0 < size },
}

fn asked(words: &[String]) -> Option<Request> {
    let size = words.get(1)?.as_str().parse::<usize>().ok()?;
    let count = words.get(2)?.as_str().parse::<u32>().ok()?;
    if size == 0 {
        return None;
    }
    Some(Request { size, count })
}

/// A thousand RELAY cells as they lie on a link.
fn relay_cells(alloc: Global) -> Result<Vec<u8>, AllocError> {
    let mut bytes = Vec::new(alloc);
    for circ in 0..1000 {
        let cell = Cell {
            circ,
            command: 3,
            body: Body::Fixed([7; 509]),
        };
        write_cell(&cell, &mut bytes)?;
    }
    Ok(bytes)
}

/// How many cells come of the bytes.
fn cells_fed(alloc: Global, bytes: &[u8], request: Request) -> Result<u64, DecodeFault> {
    let mut decoder = Decoder::cells_only(alloc);
    let mut cells = 0u64;
    for _number in 0..request.count {
        for piece in bytes.chunks(request.size) {
            cells = cells.saturating_add(decoder.feed(piece)?.len() as u64);
        }
    }
    Ok(cells)
}

fn main(rt: HostRuntime) -> io::Result<ExitCode> {
    let mut words = Vec::new(rt.alloc());
    for word in env::args(&rt)? {
        words.push(word)?;
    }
    let Some(request) = asked(&words) else {
        rt.println(USAGE)?;
        return Ok(ExitCode::from(1));
    };
    let bytes = relay_cells(rt.alloc())?;
    match cells_fed(rt.alloc(), bytes.as_slice(), request) {
        Ok(cells) => println!(rt; "{cells} cells")?,
        Err(_) => return Ok(ExitCode::from(2)),
    }
    Ok(ExitCode::SUCCESS)
}
