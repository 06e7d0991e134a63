//! A client beside the relay, with running digest and keystream of its own.

ghost use Rattle.std.specs.Prelude.{◌<◌};

use crate::log::Entry;
use crate::relay::{effects, log_of};
use crate::rules::{Allow, Rules};
use crate::tests::deeds::{Deeds, NOTHING, deeds_of, last_deeds};
use aes_ctr::Stream;
use circuit_model::{CircuitCell, Event, Payload};
use kdf_tor::{LayerKeys, derive};
use relay_cell::{begin_body, put_digest};
use run_digest::Running;
use std::alloc::{AllocError, Global};
use tor_spec::Address;

/// The cell commands of relay cells from the client.
pub const RELAY: u8 = 3;

pub const RELAY_EARLY: u8 = 9;

/// The client's end of a circuit with the keys of X and Y zero, and the events at the relay.
#[derive(Drop)]
pub struct Client {
    running: Running,
    stream: Stream,
    pub history: Vec<Event>,
}

pub fn keys() -> LayerKeys {
    derive(&[0; 20], &[0; 20]).layer
}

impl Client {
    pub fn new(alloc: Global) -> Result<Client, AllocError> {
        let mut history = Vec::new(alloc);
        history.push(Event::Born(
            CircuitCell {
                command: 6,
                body: [0; 509],
            },
            keys(),
            None,
        ))?;
        Ok(Client {
            running: Running::seeded(&keys().df),
            stream: Stream::of(&keys().kf),
            history,
        })
    }

    /// Has the relay take a cell whose body is `plain` once its layer is off.
    pub fn pass(&mut self, command: u8, plain: &[u8; 509]) -> Result<(), AllocError> {
        let mut body = *plain;
        if self.stream.position() < 1 << 90 {
            self.stream.apply(&mut body);
        }
        self.history.push(Event::Forward(command, body))?;
        Ok(())
    }

    /// Sends a body to the relay, recognised, and gives the digest after it.
    pub fn send(&mut self, command: u8, body: &[u8; 509]) -> Result<[u8; 20], AllocError> {
        let digest = self.running.look_with(body);
        let [a, b, c, d, ..] = digest;
        let mut sealed = *body;
        put_digest(&mut sealed, [a, b, c, d]);
        self.running.absorb(&sealed);
        self.pass(command, &sealed)?;
        Ok(digest)
    }

    /// What the relay did with the last event.
    pub fn last(&self, alloc: Global, rules: &Rules) -> Result<Deeds, AllocError> {
        let log = log_of(alloc, rules, &self.history)?;
        Ok(last_deeds(&log).unwrap_or(NOTHING))
    }

    /// What the relay does with this body as the next; the client is as before.
    pub fn relay_of(
        &mut self,
        alloc: Global,
        rules: &Rules,
        body: &[u8; 509],
    ) -> Result<Deeds, AllocError> {
        let [a, b, c, d, ..] = self.running.look_with(body);
        let mut sealed = *body;
        put_digest(&mut sealed, [a, b, c, d]);
        let mut stream = self.stream.copy();
        if stream.position() < 1 << 90 {
            stream.apply(&mut sealed);
        }
        let given = effects(alloc, rules, &self.history, &Event::Forward(RELAY, sealed))?;
        Ok(deeds_of(&given))
    }

    /// A client whose streams 1 to `count` are live: their places are 0 to `count` - 1.
    pub fn with_streams(alloc: Global, count: u16) -> Result<Client, AllocError> {
        let mut client = Client::new(alloc)?;
        for serial in 0..count {
            client.send(RELAY, &begin_body(serial + 1, b"echo.test", 7))?;
        }
        Ok(client)
    }

    /// The edge gives one byte at a time, at these places in turn, until there are `count` DATA.
    pub fn data_in_turn(&mut self, alloc: Global, places: u16, count: u16) -> Result<(), AllocError>
        requires { 0 < places }
    {
        for i in 0..count {
            let bytes = Payload::of(alloc, &[7])?;
            let serial = usize::from(i % places);
            self.history.push(Event::Data(serial, bytes))?;
        }
        Ok(())
    }
}

/// One name is allowed: echo.test at port 7.
pub fn echo_rules(alloc: Global) -> Result<Rules, AllocError> {
    let host = Vec::from_slice(alloc, b"echo.test")?;
    let mut allow = Vec::new(alloc);
    let to = Address {
        ip: [127, 0, 0, 1],
        port: 7,
    };
    allow.push(Allow { host, port: 7, to })?;
    Ok(Rules {
        allow,
        window: 1000,
        least: 1,
    })
}

/// The backward running digest of all that went back.
pub fn back_digest(log: &[Entry<'_>]) -> [u8; 20] {
    let mut running = Running::seeded(&keys().db);
    for entry in log {
        if let Some(body) = &entry.effects.back {
            running.absorb(body);
        }
    }
    running.digest()
}
