//! One circuit by the command line, for `bench/run circuit`, which times it: relay cells that it passes on,
//! takes in and packages, again and again, and the bare cipher and digest of as many.
#![tactic(auto)]

mod bare;
mod cells;
mod circuits;
mod work;

use cells::Report;
use std::alloc::{AllocError, Global};
use std::process::ExitCode;
use std::{env, io};
use work::{accept, package, pass_on};

const USAGE: &str =
    "usage: circuit_bench layer | layer-and-digest | digest | pass | accept | package | package-padded COUNT";

/// The key of the padding, where there is padding.
const PAD: [u8; 16] = [9; 16];

/// Does this work for so many cells; `None` where it has no such name.
fn worked(alloc: Global, name: &str, count: u32) -> Result<Option<Report>, AllocError> {
    if name == "layer" {
        return Ok(Some(bare::layers(count)));
    }
    if name == "layer-and-digest" {
        return Ok(Some(bare::layers_and_digests(count)));
    }
    if name == "digest" {
        return Ok(Some(bare::digests(count)));
    }
    if name == "pass" {
        return Ok(Some(pass_on(alloc, count)?));
    }
    if name == "accept" {
        return Ok(Some(accept(alloc, count)?));
    }
    if name == "package" {
        return Ok(Some(package(alloc, None, count)?));
    }
    if name == "package-padded" {
        return Ok(Some(package(alloc, Some(PAD), count)?));
    }
    Ok(None)
}

/// The name and the number of the work that is asked for.
fn asked(words: &[String]) -> Option<(&str, u32)> {
    let name = words.get(1)?.as_str();
    let count = words.get(2)?.as_str().parse::<u32>().ok()?;
    Some((name, count))
}

fn main(rt: HostRuntime) -> io::Result<ExitCode> {
    let mut words = Vec::new(rt.alloc());
    for word in env::args(&rt)? {
        words.push(word)?;
    }
    if let Some((name, count)) = asked(&words)
        && let Some(report) = worked(rt.alloc(), name, count)?
    {
        let last_bytes = hex::encode(rt.alloc(), report.last_bytes.as_slice())?;
        println!(rt; "{} cells {last_bytes}", report.cells)?;
        return Ok(ExitCode::SUCCESS);
    }
    rt.println(USAGE)?;
    Ok(ExitCode::from(1))
}
