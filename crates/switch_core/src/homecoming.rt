//! Worked jobs that come home: what they carry enters the circuit, and its relay has the cipher again.
ghost use Rattle.std.specs.Prelude.{◌≡◌, ◌<◌, ◌≤◌, ◌^◌, IsTrue, IfSome, is_some, length};
ghost use Rattle.circ_relay.specs.Values.{rules_of};
ghost use Rattle.switch_machine.specs.Calls.Take.{kept_length};
ghost use Rattle.switch_machine.specs.State.{slot_at};
ghost use Rattle.switch_core.specs.Homecoming.{HomeBack, HomeForth, SlotHome, slot_calls, with_back};

use crate::opening::forget_torn;
use crate::parts::Parts;
use crate::relay::Relay;
use circ_relay::Rules;
use hop_crypto::Cipher;
use relay_cell::Opened;
use tr_io::answers::BackAnswer;
use tr_io::names::CircNo;

/// A forward job comes home: its bodies act on the circuit, and the relay has the cipher behind them; where
/// one of them closes the circuit, it is torn down and its relay forgotten.
pub fn settle_home(
    parts: &mut Parts,
    relays: &mut Vec<Option<Relay>>,
    rules: &Rules,
    circ: CircNo,
    end: Cipher,
    opened_bodies: &[Opened],
) -> BackAnswer
    requires steps { parts.old.steps < 2 ^ 62 }
    requires live { IsTrue (is_some (slot_at parts.old.circuits circ.0)) }
    requires relay { IsTrue (is_some (slot_at relays.old.items circ.0)) }
    requires count { IfSome (slot_at parts.old.circuits circ.0) (λ x. length opened_bodies.now ≡ kept_length x.forth.claim_out) }
    requires most { length opened_bodies.now ≤ 32 }
    requires calls { slot_calls (slot_at relays.old.items circ.0) (slot_at parts.old.circuits circ.0) }
    ensures home { HomeForth (rules_of rules.now) parts.old parts.new relays.old.items relays.new.items circ.0 end opened_bodies.now result }
{
    let slot = &mut relays[circ.0 as usize];
    let answer = settle_with(parts, slot, rules, circ, end, opened_bodies);
    forget_torn(relays, circ, answer);
    answer
}

/// The same for the circuit's relay.
fn settle_with(
    parts: &mut Parts,
    slot: &mut Option<Relay>,
    rules: &Rules,
    circ: CircNo,
    end: Cipher,
    opened_bodies: &[Opened],
) -> BackAnswer
    requires steps { parts.old.steps < 2 ^ 62 }
    requires live { IsTrue (is_some (slot_at parts.old.circuits circ.0)) }
    requires relay { IsTrue (is_some slot.old) }
    requires count { IfSome (slot_at parts.old.circuits circ.0) (λ x. length opened_bodies.now ≡ kept_length x.forth.claim_out) }
    requires most { length opened_bodies.now ≤ 32 }
    requires calls { slot_calls slot.old (slot_at parts.old.circuits circ.0) }
    ensures home { SlotHome (rules_of rules.now) parts.old parts.new slot.old slot.new circ.0 end opened_bodies.now result }
{
    let Some(relay) = slot else { unreachable!() };
    let answer = parts.settle_forth(circ, &mut relay.circuit, rules, opened_bodies);
    relay.forth = end;
    answer
}

/// A backward job comes home: its bodies are the next cells of the leg towards the client, and the relay has the
/// cipher behind them.
pub fn seal_home(
    parts: &mut Parts,
    relays: &mut Vec<Option<Relay>>,
    circ: CircNo,
    end: Cipher,
    sealed: &[Opened],
)
    requires steps { parts.old.steps < 2 ^ 62 }
    requires live { IsTrue (is_some (slot_at parts.old.circuits circ.0)) }
    requires relay { IsTrue (is_some (slot_at relays.old.items circ.0)) }
    requires count { IfSome (slot_at parts.old.circuits circ.0) (λ x. length sealed.now ≡ kept_length x.back.claim_out) }
    requires out { IfSome (slot_at parts.old.circuits circ.0) (λ x. kept_length x.back.claim_out ≤ x.back.claimed_count) }
    ensures home { HomeBack parts.old parts.new relays.old.items relays.new.items circ.0 end sealed.now }
{
    parts.seal_back(circ, sealed);
    let slot = &mut relays[circ.0 as usize];
    put_back(slot, end);
}

/// A relay has the cipher that puts its layer on the next bodies back.
fn put_back(slot: &mut Option<Relay>, end: Cipher)
    ensures { slot.new ≡ with_back end slot.old }
{
    if let Some(relay) = slot {
        relay.back = end;
    }
}
