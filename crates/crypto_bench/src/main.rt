//! The cipher, the running digest and a hop's layer by the command line: many bodies for `bench/run`,
//! which times them, and single blocks and bodies for `bench/vectors`, which compares them with other
//! implementations. Keys, blocks and bodies are words in hex.
#![tactic(auto)]

ghost use Rattle.std.specs.Prelude.{◌≡◌, ◌+◌, ◌*◌, ◌<◌, ◌^◌};

use aes_block::Schedule;
use aes_ctr::Stream;
use aes_lanes::LaneKeys;
use hex::FromHex;
use hop_crypto::Opener;
use kdf_tor::LayerKeys;
use run_digest::Running;
use std::alloc::{AllocError, Global};
use std::process::ExitCode;
use std::{env, io};

const USAGE: &str =
    "usage: crypto_bench apply COUNT | eight COUNT | digest COUNT | layer COUNT | pass COUNT | block KEY BLOCK | body KEY NUMBER BODY";

enum Request {
    /// Apply the keystream of the zero key to a body again and again.
    Apply(u32),
    /// The cipher of eight blocks again and again: four groups take turns, each over its last cipher.
    Eight(u32),
    /// Let a body go by a running digest again and again.
    Digest(u32),
    /// Take a hop's layer off so many bodies that are meant for it.
    Layer(u32),
    /// Take a hop's layer off so many bodies that are meant for another.
    Pass(u32),
    /// The cipher of a block.
    Block([u8; 16], [u8; 16]),
    /// The keystream of a key applied to its body of this number.
    Body([u8; 16], u32, [u8; 509]),
}

fn asked(words: &[String]) -> Option<Request> {
    let name = words.get(1)?.as_str();
    let first = words.get(2)?.as_str();
    if name == "apply" {
        return Some(Request::Apply(first.parse::<u32>().ok()?));
    }
    if name == "eight" {
        return Some(Request::Eight(first.parse::<u32>().ok()?));
    }
    if name == "digest" {
        return Some(Request::Digest(first.parse::<u32>().ok()?));
    }
    if name == "layer" {
        return Some(Request::Layer(first.parse::<u32>().ok()?));
    }
    if name == "pass" {
        return Some(Request::Pass(first.parse::<u32>().ok()?));
    }
    let key = <[u8; 16] as FromHex>::from_hex(first).ok()?;
    let second = words.get(3)?.as_str();
    if name == "block" {
        return Some(Request::Block(key, <[u8; 16] as FromHex>::from_hex(second).ok()?));
    }
    if name != "body" {
        return None;
    }
    let body = <[u8; 509] as FromHex>::from_hex(words.get(4)?.as_str()).ok()?;
    Some(Request::Body(key, second.parse::<u32>().ok()?, body))
}

/// Applies the next keystream to the same body `count` times.
fn advance(stream: &mut Stream, body: &mut [u8; 509], count: u32)
    requires { stream.old.position ≡ 0 }
    ensures key { stream.new.key ≡ stream.old.key }
    ensures position { stream.new.position ≡ 509 * count }
{
    for _place in 0..count {
        stream.apply(body);
    }
}

fn many_bodies(alloc: Global, count: u32) -> Result<String, AllocError> {
    let mut body = [0; 509];
    let mut stream = Stream::of(&[0; 16]);
    advance(&mut stream, &mut body, count);
    hex::encode(alloc, body.as_slice())
}

fn many_eights(alloc: Global, count: u32) -> Result<String, AllocError> {
    let keys = LaneKeys::of(&Schedule::of(&[0; 16]));
    let mut groups = [[[0; 16]; 8]; 4];
    for n in 0..count as usize {
        keys.encrypt8(&mut groups[n % 4]);
    }
    hex::encode(alloc, groups[0][7].as_slice())
}

fn many_digests(alloc: Global, count: u32) -> Result<String, AllocError> {
    let body = [0; 509];
    let mut running = Running::seeded(&[0; 20]);
    for _number in 0..count {
        running.absorb(&body);
    }
    hex::encode(alloc, running.digest().as_slice())
}

/// Opens as many of the relay's first bodies as asked, two by two, each two by the relay as it is at
/// first: a store of keystream serves two bodies.
fn open_again(relay: &Opener, bodies: &[[u8; 509]; 2], count: u32) -> [u8; 20]
    requires { relay.now.stream.position ≡ 0 }
{
    let mut last = [0; 20];
    for _pair in 0..count / 2 {
        let mut opener = relay.copy();
        let [mut first, mut second] = *bodies;
        if let Some(_) = opener.take_off(&mut first)
            && let Some(digest) = opener.take_off(&mut second)
        {
            last = digest;
        }
    }
    last
}

const KEYS: LayerKeys = LayerKeys {
    df: [0; 20],
    db: [0; 20],
    kf: [0; 16],
    kb: [0; 16],
};

fn many_layers(alloc: Global, count: u32) -> Result<String, AllocError> {
    let mut stream = Stream::of(&KEYS.kf);
    let mut running = Running::seeded(&KEYS.df);
    let mut first = [0; 509];
    let first_digest = running.look_with(&first);
    first[5..9].copy_from_slice(&first_digest[..4]);
    running.absorb(&first);
    let mut second = [0; 509];
    let second_digest = running.look_with(&second);
    second[5..9].copy_from_slice(&second_digest[..4]);
    stream.apply(&mut first);
    stream.apply(&mut second);
    let last = open_again(&Opener::of(&KEYS), &[first, second], count);
    hex::encode(alloc, last.as_slice())
}

/// Takes the relay's layer off the same body `count` times.
fn pass_on(relay: &mut Opener, body: &mut [u8; 509], count: u32)
    requires { relay.old.stream.position ≡ 0 }
    ensures { relay.new.stream.position ≡ 509 * count }
{
    for _body_number in 0..count {
        let _ = relay.take_off(body);
    }
}

fn many_passed(alloc: Global, count: u32) -> Result<String, AllocError> {
    let mut body = [0; 509];
    pass_on(&mut Opener::of(&KEYS), &mut body, count);
    hex::encode(alloc, body.as_slice())
}

fn one_block(alloc: Global, key: &[u8; 16], block: &[u8; 16]) -> Result<String, AllocError> {
    let cipher = Schedule::of(key).encrypt(block);
    hex::encode(alloc, cipher.as_slice())
}

fn one_body(
    alloc: Global,
    key: &[u8; 16],
    number: u32,
    mut body: [u8; 509],
) -> Result<String, AllocError> {
    let mut stream = Stream::of(key);
    let mut before = [0; 509];
    advance(&mut stream, &mut before, number);
    stream.apply(&mut body);
    hex::encode(alloc, body.as_slice())
}

fn answer(alloc: Global, request: Request) -> Result<String, AllocError> {
    match request {
        Request::Apply(count) => many_bodies(alloc, count),
        Request::Eight(count) => many_eights(alloc, count),
        Request::Digest(count) => many_digests(alloc, count),
        Request::Layer(count) => many_layers(alloc, count),
        Request::Pass(count) => many_passed(alloc, count),
        Request::Block(key, block) => one_block(alloc, &key, &block),
        Request::Body(key, number, body) => one_body(alloc, &key, number, body),
    }
}

fn main(rt: HostRuntime) -> io::Result<ExitCode> {
    let mut words = Vec::new(rt.alloc());
    for word in env::args(&rt)? {
        words.push(word)?;
    }
    let Some(request) = asked(&words) else {
        rt.println(USAGE)?;
        return Ok(ExitCode::from(1));
    };
    rt.println(answer(rt.alloc(), request)?)?;
    Ok(ExitCode::SUCCESS)
}
