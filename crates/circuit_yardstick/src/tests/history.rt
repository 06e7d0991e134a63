//! One history: what comes next, by the numbers of a seed, and what the circuit did with it.

use crate::tests::cells::RELAY_EARLY;
use crate::tests::client::Client;
use crate::tests::driver::Driver;
use crate::tests::kinds::Theme;
use crate::tests::random::Random;
use crate::tests::rules::{CircuitSettings, fast_rules};
use circ_relay::{Effects, NextHop, Rules};
use circuit_model::{CircuitCell, Event};
use kdf_tor::{LayerKeys, derive};
use std::alloc::{AllocError, Global};
use std::process::Abort;
use stream_edge::Phase;
use tr_io::answers::ShutWhy;
use tr_io::edges::EdgeOrder;
use tr_io::names::StreamKey;

/// A stream as the client knows it.
#[derive(Clone, Copy)]
pub struct ClientStream {
    pub key: StreamKey,
    /// The DATA of the stream that came back, and the SENDMEs that the client sent for them.
    pub data: u64,
    pub sendmes: u64,
}

#[derive(Drop)]
pub struct History {
    pub seed: u64,
    pub random: Random,
    pub theme: Theme,
    pub settings: CircuitSettings,
    pub client: Client,
    /// The circuit, until it closes.
    pub circuit: Option<Driver>,
    /// The streams that were begun, by their serial.
    pub streams: Vec<ClientStream>,
    /// The RELAY_EARLY cells that came.
    pub early: u64,
    pub events: Vec<Event>,
    /// What the circuit did with each event.
    pub effects: Vec<Effects>,
}

/// The keys of this seed.
fn keys_of(random: &mut Random) -> LayerKeys {
    derive(&random.digest(), &random.digest()).layer
}

/// The key of the padding, where bodies are padded.
fn pad_of(random: &mut Random, settings: CircuitSettings) -> Option<[u8; 16]> {
    if !settings.is_padded {
        return None;
    }
    let mut key = [0; 16];
    key.copy_from_slice(&random.digest()[..16]);
    Some(key)
}

impl History {
    /// The circuit was opened.
    pub fn new(
        alloc: Global,
        seed: u64,
        theme: Theme,
        settings: CircuitSettings,
    ) -> Result<History, AllocError> {
        let mut random = Random::seeded(seed);
        let keys = keys_of(&mut random);
        let pad = pad_of(&mut random, settings);
        let rules = fast_rules(alloc, settings)?;
        let reply = CircuitCell {
            command: 6,
            body: random.body(),
        };
        let mut events = Vec::new(alloc);
        events.push(Event::Born(reply, keys, pad))?;
        let mut effects = Vec::new(alloc);
        effects.push(Effects::none())?;
        Ok(History {
            seed,
            random,
            theme,
            settings,
            client: Client::new(alloc, &keys),
            circuit: Some(Driver::new(&keys, pad, &rules)),
            streams: Vec::new(alloc),
            early: 0,
            events,
            effects,
        })
    }

    /// Lets an event happen, if the circuit can be given it, and tells whether it was.
    pub fn happens(
        &mut self,
        rt: &impl Abort,
        alloc: Global,
        rules: &Rules,
        event: Event,
    ) -> Result<bool, AllocError> {
        let key = self.key_of(&event);
        let effects = match &mut self.circuit {
            Some(driver) => driver.take(rt, alloc, rules, key, &event)?,
            None => Some(Effects::none()),
        };
        let Some(effects) = effects else {
            return Ok(false);
        };
        self.follow(&event, &effects)?;
        self.events.push(event)?;
        self.effects.push(effects)?;
        Ok(true)
    }

    /// The stream that an event of the edge is of.
    fn key_of(&self, event: &Event) -> Option<StreamKey> {
        match event {
            Event::Connected(serial)
            | Event::Data(serial, _)
            | Event::Ended(serial, _)
            | Event::Drained(serial)
            | Event::Freed(serial) => Some(self.streams.get(*serial)?.key),
            _ => None,
        }
    }

    /// The client, and what is known of the streams, follow what was done.
    fn follow(&mut self, event: &Event, effects: &Effects) -> Result<(), AllocError> {
        if let Event::Forward(RELAY_EARLY, _) = event {
            self.early = self.early.saturating_add(1);
        }
        if let Event::Data(serial, _) = event {
            self.data_came(*serial);
        }
        if let Some(body) = own_body(event, effects) {
            self.client.came(&body)?;
        }
        if let Some(EdgeOrder::Reach(key, _)) = &effects.edge {
            self.streams.push(ClientStream {
                key: *key,
                data: 0,
                sendmes: 0,
            })?;
        }
        if effects.close.is_some() {
            self.circuit = None;
        }
        Ok(())
    }

    fn data_came(&mut self, serial: usize) {
        if let Some(stream) = self.streams.get_mut(serial) {
            stream.data = stream.data.saturating_add(1);
        }
    }

    /// A SENDME of the stream was sent.
    pub fn sendme_sent(&mut self, serial: usize) {
        if let Some(stream) = self.streams.get_mut(serial) {
            stream.sendmes = stream.sendmes.saturating_add(1);
        }
    }

    /// The phase of the stream with this serial.
    pub fn phase(&self, stream: &ClientStream) -> Option<Phase> {
        self.circuit.as_ref()?.phase(stream.key)
    }

    /// Which window keeps the bytes of the stream with this serial from being packaged, and at which
    /// count.
    pub fn shut(&self, serial: usize) -> Option<(ShutWhy, u64)> {
        self.circuit.as_ref()?.shut(self.streams.get(serial)?.key)
    }

    /// What the circuit has of a next hop; nothing once it closed.
    pub fn next_hop(&self) -> Option<NextHop> {
        Some(self.circuit.as_ref()?.next_hop())
    }

    /// One of the streams in these phases, if there is one.
    pub fn stream_in(&mut self, phases: &[Phase]) -> Option<ClientStream> {
        let count = self.count_in(phases);
        if count == 0 {
            return None;
        }
        let mut skip_count = self.random.below(count);
        for stream in self.streams.iter() {
            if !is_among(self.phase(stream), phases) {
                continue;
            }
            if skip_count == 0 {
                return Some(*stream);
            }
            skip_count -= 1;
        }
        None
    }

    /// How many streams are in these phases.
    pub fn count_in(&self, phases: &[Phase]) -> u64 {
        let mut count = 0u64;
        for stream in self.streams.iter() {
            if is_among(self.phase(stream), phases) {
                count = count.saturating_add(1);
            }
        }
        count
    }

    /// Whether the StreamID is live.
    pub fn is_live(&self, id: u16) -> bool {
        self.streams.iter().any(|stream| stream.key.id == id && is_among(self.phase(stream), &LIVE))
    }
}

/// The phases in which a stream is live.
pub const LIVE: [Phase; 2] = [Phase::Reaching, Phase::Joined];

fn is_among(phase: Option<Phase>, phases: &[Phase]) -> bool {
    match phase {
        Some(phase) => phases.contains(&phase),
        None => false,
    }
}

/// The body that the relay packaged.
fn own_body(event: &Event, effects: &Effects) -> Option<[u8; 509]> {
    match event {
        Event::Backward(_) => None,
        _ => effects.back,
    }
}
