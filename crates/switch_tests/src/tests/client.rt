//! The client of a circuit.

ghost use Rattle.std.specs.Prelude.{◌≤◌, ◌*◌};

use crate::tests::opening::{circ_id, opening_at};
use crate::tests::switch::TestSwitch;
use cell_codec::{Body, command};
use hop_crypto::{Opener, Sealer};
use kdf_tor::LayerKeys;
use relay_cell::put_digest;
use run_digest::Running;
use std::alloc::Global;
use std::process::Abort;
use tr_io::answers::TakeAnswer;

/// The client's end of a circuit whose previous hop it is, with running digests and ciphers of its own.
#[derive(Drop)]
pub struct Client {
    id: u32,
    digest: Running,
    forth: Sealer,
    back: Opener,
    /// How many bodies were sealed and opened.
    bodies: u32,
    ghost forth_place: { forth.position ≤ 509 * bodies },
    ghost back_place: { back.stream.position ≤ 509 * bodies },
}

impl Client {
    /// The client of the circuit that has this number in its switch.
    pub fn of(rt: &(impl Abort + Alloc<A = Global>), number: u32) -> Client {
        let opening = opening_at(rt.alloc(), circ_id(number)).expect(rt, "memory");
        let keys = opening.keys.expect(rt, "an opening that isn't refused");
        // What goes on at the client comes off at the relay, and the other way round.
        let turned = LayerKeys {
            df: keys.db,
            db: keys.df,
            kf: keys.kb,
            kb: keys.kf,
        };
        Client {
            id: circ_id(number),
            digest: Running::seeded(&keys.df),
            forth: Sealer::of(&turned),
            back: Opener::of(&turned),
            bodies: 0,
        }
    }

    /// The CircID.
    pub fn id(&self) -> u32 {
        self.id
    }

    /// The body whose plain text the relay recognises as this one.
    pub fn seal(&mut self, rt: &impl Abort, plain: &[u8; 509]) -> [u8; 509] {
        assert!(rt; self.bodies < u32::MAX);
        self.digest.absorb(plain);
        let [a, b, c, d, ..] = self.digest.digest();
        let mut body = *plain;
        put_digest(&mut body, [a, b, c, d]);
        self.forth.put_on(&mut body);
        self.bodies += 1;
        body
    }

    /// Sends this body, which waits in the switch then.
    pub fn send(&mut self, rt: &impl Abort, switch: &mut TestSwitch, plain: &[u8; 509]) {
        let body = self.seal(rt, plain);
        assert_eq!(rt; switch.take(rt, self.id, &body), TakeAnswer::Queued);
    }

    /// Sends this body in RELAY_EARLY, which waits in the switch then.
    pub fn send_early(&mut self, rt: &impl Abort, switch: &mut TestSwitch, plain: &[u8; 509]) {
        let body = self.seal(rt, plain);
        let answer = switch.take_cell(rt, self.id, command::RELAY_EARLY, &body);
        assert_eq!(rt; answer, TakeAnswer::Queued);
    }

    /// The body of the next cell that leaves the switch, its Digest as zero. The cell is for this circuit, and the
    /// relay packaged it.
    pub fn receive(&mut self, rt: &impl Abort, switch: &mut TestSwitch) -> [u8; 509] {
        let cell = switch.next_cell(rt).expect(rt, "a relay cell");
        assert_eq!(rt; (cell.circ, cell.command), (self.id, command::RELAY));
        match cell.body {
            Body::Fixed(body) => self.open(rt, &body).expect(rt, "a Digest"),
            Body::Var(_) => panic!(rt; "a relay cell of variable length"),
        }
    }

    // The plain text of a body, its Digest as zero, if the relay packaged it.
    fn open(&mut self, rt: &impl Abort, body: &[u8; 509]) -> Option<[u8; 509]> {
        assert!(rt; self.bodies < u32::MAX);
        let mut plain = *body;
        let recognised = self.back.take_off(&mut plain);
        self.bodies += 1;
        recognised?;
        put_digest(&mut plain, [0; 4]);
        Some(plain)
    }
}
