//! Relay cells from the client's side with this relay's layer taken off, and which are recognised.

ghost use Rattle.std.specs.Prelude.{◌≡◌, ℕ, ◌+◌, ◌*◌, ◌^◌, ◌<◌, ◌&&◌, ◌++◌, ◌∷◌, [], List, IfOk, bytes_eq, length, take, drop};
ghost use Rattle.crypto_spec.specs.HopLayer.{layered};
ghost use Rattle.crypto_spec.specs.Keystream.{keystream_part};
ghost use Rattle.crypto_spec.specs.RunningDigest.{running_digest};
ghost use Rattle.run_digest.specs.HashState.{HasAbsorbed};
ghost use Rattle.circuit_model.specs.Log.{Entry as ModelEntry, pushed};
ghost use Rattle.circuit_model.specs.Opened.{keys_in, no_keys, born_keys, pad_in, born_pad, is_forward, forward_count, plain_body, with_recognised, recognised_with, recognised_bodies};
ghost use Rattle.plain_circuit.specs.Reading.{IsReader};
ghost use Rattle.plain_circuit.specs.Values.{log_of};

use crate::log::Entry;
use aes_ctr::Stream;
use circuit_model::Event;
use kdf_tor::LayerKeys;
use run_digest::Running;
use std::alloc::{AllocError, Global};

fn keys_in(event: &Event) -> Option<LayerKeys>
    ensures { result ≡ keys_in event.now }
{
    match event {
        Event::Born(_, keys, _) => Some(*keys),
        _ => None,
    }
}

/// Stands in for the keys before the circuit is opened.
fn no_keys() -> LayerKeys
    ensures { result ≡ no_keys }
{
    LayerKeys {
        df: [0; 20],
        db: [0; 20],
        kf: [0; 16],
        kb: [0; 16],
    }
}

/// The keys that the circuit was opened with; zero bytes stand in before that.
pub fn born_keys(log: &[Entry<'_>]) -> LayerKeys
    ensures { result ≡ born_keys (log_of log.now) }
{
    let mut keys = no_keys();
    for entry in log {
        if let Some(new_keys) = keys_in(entry.event) {
            keys = new_keys;
        }
    }
    keys
}

fn pad_in(event: &Event) -> Option<[u8; 16]>
    ensures { result ≡ pad_in event.now }
{
    match event {
        Event::Born(_, _, pad) => *pad,
        _ => None,
    }
}

/// The key of the padding that the circuit was opened with, if there is one.
pub fn born_pad(log: &[Entry<'_>]) -> Option<[u8; 16]>
    ensures { result ≡ born_pad (log_of log.now) }
{
    let mut pad = None;
    for entry in log {
        if let Some(new_pad) = pad_in(entry.event) {
            pad = Some(new_pad);
        }
    }
    pad
}

fn is_forward(event: &Event) -> bool
    ensures { result ≡ is_forward event.now }
{
    matches!(event, Event::Forward(_, _))
}

/// How many relay cells came from the client's side.
pub fn forward_count(log: &[Entry<'_>]) -> usize
    ensures { result ≡ forward_count (log_of log.now) }
{
    let mut count = 0;
    for entry in log {
        if is_forward(entry.event) {
            count += 1;
        }
    }
    count
}

/// The keystream of a cipher key, behind `n` bodies.
fn keystream_behind(key: &[u8; 16], n: usize) -> Stream
    ensures key { result.key ≡ key.now }
    ensures position { result.position ≡ 509 * n }
{
    let mut stream = Stream::of(key);
    let mut scratch = [0; 509];
    for number in 0..n {
        stream.apply(&mut scratch);
    }
    stream
}

/// Body number `n` of its direction with the layer of a cipher key put on or taken off.
#[tactic(auto, unfolding(crypto_spec::specs::HopLayer::layered))]
pub fn layered(key: &[u8; 16], n: usize, body: &[u8; 509]) -> [u8; 509]
    ensures { result ≡ layered key.now (509 * n) body.now }
{
    let mut layered_body = *body;
    keystream_behind(key, n).apply(&mut layered_body);
    layered_body
}

/// The 509 bytes of a key's keystream for body number `n`.
#[tactic(auto, using(circuit_model::proofs::Keystreams::xor_of_zeros), unfolding(crypto_spec::specs::HopLayer::layered))]
pub fn keystream_for(key: &[u8; 16], n: usize) -> [u8; 509]
    ensures { result ≡ keystream_part key.now (509 * n) 509 }
{
    layered(key, n, &[0; 509])
}

/// The next forward body with this relay's layer taken off.
pub fn plain_body(log: &[Entry<'_>], body: &[u8; 509]) -> [u8; 509]
    ensures { result ≡ plain_body (log_of log.now) body.now }
{
    layered(&born_keys(log).kf, forward_count(log), body)
}

fn running_of(seed: &[u8; 20], bodies: &[[u8; 509]]) -> Running
    ensures { HasAbsorbed result seed.now bodies.now }
{
    let mut running = Running::seeded(seed);
    for body in bodies {
        running.absorb(body);
    }
    running
}

/// The running digest of these bodies.
pub fn digest_of(seed: &[u8; 20], bodies: &[[u8; 509]]) -> [u8; 20]
    ensures { result ≡ running_digest seed.now bodies.now }
{
    running_of(seed, bodies).digest()
}

/// Whether a plain body is recognised whose running digest with it is this one: its field Recognized
/// is zero, and its Digest is the first four bytes.
pub fn is_recognised_by(plain: &[u8; 509], digest: &[u8; 20]) -> bool
    ensures { result ≡ bytes_eq (take 2 (drop 1 plain.now)) (0 ∷ 0 ∷ []) && bytes_eq (take 4 (drop 5 plain.now))
        (take 4 digest.now) }
{
    let is_zero = plain[1..3] == [0, 0];
    let fits = plain[5..9] == digest[..4];
    is_zero && fits
}

/// The running digest of these bodies and one more.
pub fn digest_with(
    alloc: Global,
    seed: &[u8; 20],
    earlier_bodies: &[[u8; 509]],
    plain: &[u8; 509],
) -> Result<[u8; 20], AllocError>
    ensures { IfOk result (λ digest. digest ≡ running_digest seed.now (earlier_bodies.now ++ plain.now ∷ [])) }
{
    let mut bodies = Vec::from_slice(alloc, earlier_bodies)?;
    bodies.push(*plain)?;
    Ok(digest_of(seed, &bodies))
}

/// The cipher and the running digest that are due to the next forward body of a log.
#[derive(Drop)]
struct Reader {
    stream: Stream,
    running: Running,
}

impl Reader {
    /// Behind `count` forward bodies, these of them recognised.
    fn of(keys: &LayerKeys, count: usize, bodies: &[[u8; 509]]) -> Reader
        ensures key { result.stream.key ≡ keys.now.kf }
        ensures position { result.stream.position ≡ 509 * count }
        ensures digest { HasAbsorbed result.running keys.now.df bodies.now }
    {
        Reader {
            stream: keystream_behind(&keys.kf, count),
            running: running_of(&keys.df, bodies),
        }
    }

    /// The next forward body, plain, if it is recognised.
    #[tactic(auto, unfolding(crypto_spec::specs::HopLayer::layered, crypto_spec::specs::HopLayer::is_recognised))]
    fn open(&mut self, body: &[u8; 509]) -> Option<[u8; 509]>
        requires { self.old.stream.position < 2 ^ 100 }
        ensures more { (seed : List ℕ) (bodies : List (List ℕ)) → HasAbsorbed self.old.running seed bodies
            → pushed bodies result ≡ with_recognised seed bodies (layered self.old.stream.key self.old.stream.position body.now) }
        ensures digest { (seed : List ℕ) (bodies : List (List ℕ)) → HasAbsorbed self.old.running seed bodies
            → HasAbsorbed self.new.running seed (pushed bodies result) }
        ensures key { self.new.stream.key ≡ self.old.stream.key }
        ensures position { self.new.stream.position ≡ self.old.stream.position + 509 }
    {
        let mut plain = *body;
        self.stream.apply(&mut plain);
        if is_recognised_by(&plain, &self.running.look_with(&plain)) {
            self.running.absorb(&plain);
            Some(plain)
        } else {
            None
        }
    }

    /// The plain body that an event behind a log adds to the recognised ones.
    fn read(&mut self, log: &[Entry<'_>], bodies: &[[u8; 509]], event: &Event) -> Option<[u8; 509]>
        requires short { length log.now < 2 ^ 64 }
        requires reader { IsReader self.old.stream self.old.running (log_of log.now) }
        requires recognised { bodies.now ≡ recognised_bodies (log_of log.now) }
        ensures more { pushed bodies.now result ≡ recognised_with (log_of log.now) bodies.now event.now }
        ensures next { (entry : ModelEntry) → entry.event ≡ event.now
            → IsReader self.new.stream self.new.running (entry ∷ log_of log.now) }
    {
        match event {
            Event::Born(_, keys, _) => {
                *self = Reader::of(keys, forward_count(log), bodies);
                None
            }
            Event::Forward(_, body) => self.open(body),
            _ => None,
        }
    }
}

/// The plain bodies that were recognised, oldest first.
pub fn recognised_bodies(alloc: Global, log: &[Entry<'_>]) -> Result<Vec<[u8; 509]>, AllocError>
    ensures { IfOk result (λ bodies. bodies.items ≡ recognised_bodies (log_of log.now)) }
{
    let mut bodies = Vec::new(alloc);
    let mut reader = Reader::of(&no_keys(), 0, &[]);
    for (i, entry) in log.iter().enumerate() {
        if let Some(body) = reader.read(&log[..i], &bodies, entry.event) {
            bodies.push(body)?;
        }
    }
    Ok(bodies)
}
