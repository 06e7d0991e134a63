// A keystream and the place in it.

ghost use Rattle.std.specs.Prelude.{◌≡◌, ◌+◌, ◌^◌, ◌<◌, ◌≤◌, ◌↔◌, IsTrue, bit_xor};
ghost use Rattle.std.specs.Simd.Lanes.{zip2};
ghost use Rattle.crypto_spec.specs.Keystream.{keystream_part};

use crate::pad::{fill, move_down, xor};
use aes_block::Schedule;
use aes_lanes::LaneKeys;
use std::marker::Model;

/// One direction's keystream and the number of its next byte. A stream begins at byte 0. Up to 1,024
/// bytes from there on are made ahead.
///
/// Keystream is made by groups of eight blocks, and none of it twice. So the store has room for a group
/// that is begun by those 1,024 bytes and ends behind them.
#[derive(Drop)]
pub struct Stream {
    keys: LaneKeys,
    position: u128,
    store: [u8; 1152],
    used: usize,
    ready: usize,
}

impl Model for Stream {
    ghost use Rattle.aes_ctr.specs.StreamState.{StreamState, IsStore};

    ghost Value = { StreamState };

    ghost view = { λ s. record { key = s.keys; position = s.position; ready = s.ready } };

    ghost invariant = { λ s. IsStore s.keys s.position s.store s.used s.ready };
}

impl Stream {
    /// The keystream of a key, from its first byte on. None of it is made yet.
    pub fn of(key: &[u8; 16]) -> Stream
        ensures key { result.key ≡ key.now }
        ensures start { result.position ≡ 0 }
        ensures none { result.ready ≡ 0 }
    {
        Stream {
            keys: LaneKeys::of(&Schedule::of(key)),
            position: 0,
            store: [0; 1152],
            used: 1152,
            ready: 0,
        }
    }

    /// Xors a body, which is the 509 bytes of a relay cell, with the next 509 bytes of keystream. Where
    /// fewer are ready, 1,024 are made first.
    pub fn apply(&mut self, body: &mut [u8; 509])
        requires { self.old.position < 2 ^ 100 }
        ensures body { body.new ≡ zip2 bit_xor body.old (keystream_part self.old.key self.old.position 509) }
        ensures key { self.new.key ≡ self.old.key }
        ensures position { self.new.position ≡ self.old.position + 509 }
        ensures used { 509 ≤ self.old.ready → self.new.ready + 509 ≡ self.old.ready }
        ensures made { self.old.ready < 509 → self.new.ready ≡ 515 }
    {
        self.make_enough();
        self.take_from_store(body);
    }

    /// Makes the next 1,024 bytes of keystream ahead of their use.
    pub fn ahead(&mut self)
        requires { self.old.position < 2 ^ 100 }
        ensures key { self.new.key ≡ self.old.key }
        ensures position { self.new.position ≡ self.old.position }
        ensures full { self.new.ready ≡ 1024 }
    {
        let made = 1152 - self.used;
        if made < 1024 {
            let more = (1151 - made) / 128 * 128;
            move_down(&mut self.store, more);
            fill(
                &mut self.store[1152 - more..],
                &self.keys,
                (self.position + made as u128) / 16,
            );
            self.used -= more;
        }
        self.ready = 1024;
    }

    /// The bytes of keystream that are made, from the next byte on: at most 1,024.
    pub fn ready(&self) -> &[u8]
        ensures next { result.now ≡ keystream_part self.now.key self.now.position self.now.ready }
        ensures within { self.now.ready ≤ 1024 }
    {
        &self.store[self.used..self.used + self.ready]
    }

    /// The number of the next byte of keystream; the stream's first is 0.
    pub fn position(&self) -> u128
        ensures { result ≡ self.now.position }
    {
        self.position
    }

    /// Whether two streams have the same key and are at the same byte.
    pub fn same(&self, other: &Stream) -> bool
        ensures { IsTrue result ↔ ((self.now.key ≡ other.now.key) × (self.now.position ≡ other.now.position)) }
    {
        self.position == other.position && self.keys.key() == other.keys.key()
    }

    /// The same stream once more, at the same byte.
    pub fn copy(&self) -> Stream
        ensures { result ≡ self.now }
    {
        Stream {
            keys: self.keys.copy(),
            position: self.position,
            store: self.store,
            used: self.used,
            ready: self.ready,
        }
    }

    fn make_enough(&mut self)
        requires { self.old.position < 2 ^ 100 }
        ensures key { self.new.key ≡ self.old.key }
        ensures position { self.new.position ≡ self.old.position }
        ensures enough { 509 ≤ self.old.ready → self.new.ready ≡ self.old.ready }
        ensures short { self.old.ready < 509 → self.new.ready ≡ 1024 }
    {
        if self.ready < 509 {
            self.ahead();
        }
    }

    fn take_from_store(&mut self, body: &mut [u8; 509])
        requires enough { 509 ≤ self.old.ready }
        requires room { self.old.position < 2 ^ 100 }
        ensures body { body.new ≡ zip2 bit_xor body.old (keystream_part self.old.key self.old.position 509) }
        ensures key { self.new.key ≡ self.old.key }
        ensures position { self.new.position ≡ self.old.position + 509 }
        ensures ready { self.new.ready + 509 ≡ self.old.ready }
    {
        xor(body, &self.store[self.used..self.used + 509]);
        self.used += 509;
        self.ready -= 509;
        self.position += 509;
    }
}
