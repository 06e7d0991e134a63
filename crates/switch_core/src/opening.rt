//! The relays of circuits that are opened, and of those that are gone.
ghost use Rattle.std.specs.Prelude.{vec_len, vec_capacity, ◌≡◌, ◌<◌, ◌^◌, ⊤, IfSome, IsTrue, false};
ghost use Rattle.cell_codec.specs.Cells.{is_var};
ghost use Rattle.circ_relay.specs.Values.{rules_of};
ghost use Rattle.tor_spec.specs.CellCommands.{opens_circuit};
ghost use Rattle.switch_machine.specs.Adds.{OpenCase};
ghost use Rattle.switch_machine.specs.Calls.OpenCircuit.{open_result, open_state};
ghost use Rattle.switch_core.specs.Opened.{Forgets, KeepsRelay, KeepsBy, TakeForgets, ForgetsDown};

use crate::parts::Parts;
use crate::relay::Relay;
use circ_relay::Rules;
use hop_handshake::Opening;
use tr_io::answers::{BackAnswer, OpenAnswer, TakeAnswer};
use tr_io::names::{ChanNo, CircNo};

/// Opens a circuit, or refuses to, where at most `most` may be live; an opened circuit's relay is kept under its
/// number.
pub fn open_with_relay(
    parts: &mut Parts,
    relays: &mut Vec<Option<Relay>>,
    rules: &Rules,
    most: u32,
    chan: ChanNo,
    id: u32,
    opening: &Opening,
) -> OpenAnswer
    requires steps { parts.old.steps < 2 ^ 62 }
    requires fixed { is_var opening.now.reply.body ≡ false }
    requires command { IfSome opening.now.keys (λ _. IsTrue (opens_circuit opening.now.reply.command)) }
    ensures state { OpenCase result (parts.new ≡ parts.old)
        (parts.new ≡ open_state most parts.old chan.0 id opening.now.reply opening.now.keys) }
    ensures answer { OpenCase result ⊤ (result ≡ open_result most parts.old chan.0 id opening.now.keys) }
    ensures relays { KeepsBy result opening.now.keys opening.now.pad (rules_of rules.now) relays.old.items relays.new.items }
{
    if relays.reserve(1).is_err() {
        return OpenAnswer::Memory;
    }
    let answer = parts.open_circuit(most, chan, id, opening);
    let OpenAnswer::Opened(number) = answer else {
        return answer;
    };
    keep_relay(relays, rules, number, opening);
    answer
}

/// Keeps the relay of the circuit of an opening, if its handshake was good.
fn keep_relay(relays: &mut Vec<Option<Relay>>, rules: &Rules, number: CircNo, opening: &Opening)
    requires { vec_len relays.old < vec_capacity relays.old }
    ensures { KeepsRelay opening.now.keys opening.now.pad (rules_of rules.now) relays.old.items relays.new.items }
{
    let Some(keys) = &opening.keys else {
        return;
    };
    relays.push_reserved(Some(Relay::new(number, keys, opening.pad, rules)));
}

/// Forgets the relay of a circuit that is gone.
pub fn forget_relay(relays: &mut Vec<Option<Relay>>, circ: CircNo)
    ensures { Forgets relays.old.items relays.new.items circ.0 }
{
    if circ.0 >= relays.len() as u64 {
        return;
    }
    relays[circ.0 as usize] = None;
}

/// Forgets the relay of the circuit that a cell tore down, if it did.
pub fn forget_taken(relays: &mut Vec<Option<Relay>>, answer: TakeAnswer)
    ensures { TakeForgets answer relays.old.items relays.new.items }
{
    if let TakeAnswer::Down(circ, _) = answer {
        forget_relay(relays, circ);
    }
}

/// Forgets the relay of a circuit that was torn down by this answer, if it was.
pub fn forget_torn(relays: &mut Vec<Option<Relay>>, circ: CircNo, answer: BackAnswer)
    ensures { ForgetsDown answer relays.old.items relays.new.items circ.0 }
{
    if let BackAnswer::Down(_) = answer {
        forget_relay(relays, circ);
    }
}
