// Relay cells from the client's side.

ghost use Rattle.std.specs.Prelude.{◌≡◌, ℕ, ◌+◌, ◌≤◌, [], ◌∷◌, List, not, nat_le, ◌==◌, ◌&&◌, if◌then◌else◌, Some, None, IfOk, OnErr, IsTrue, IfSome};
ghost use Rattle.tor_spec.specs.CellCommands.{relay_early_command};
ghost use Rattle.circuit_model.specs.Events.{Event};
ghost use Rattle.circuit_model.specs.declared.event.Event.TheVariants.{Forward};
ghost use Rattle.circuit_model.specs.Log.{Log};
ghost use Rattle.circuit_model.specs.Rules.{Rules as ModelRules};
ghost use Rattle.circuit_model.specs.NextHop.{next_hop};
ghost use Rattle.circuit_model.specs.Effects.{passed_on};
ghost use Rattle.circuit_model.specs.Received.{relay_early_limit};
ghost use Rattle.circuit_model.specs.Words.{effects, log};
ghost use Rattle.sendme_windows.specs.WindowsState.{KeepsLimits};
ghost use Rattle.circ_relay.specs.OpenedBodies.{is_data_for_live};
ghost use Rattle.circ_relay.specs.EdgeEvents.{stream_of_order};
ghost use Rattle.circ_relay.specs.CircuitOfLog.{IsCircuit, HasCalls, HasParts};
ghost use Rattle.circ_relay.specs.OpenedBodies.{IsOpened};
ghost use Rattle.circ_relay.specs.Values.{effects_of, rules_of};

use crate::circuit::Circuit;
use crate::effects::Effects;
use crate::rules::Rules;
use cell_codec::{Bytes, command as cell_command, destroy_reason};
use circuit_model::NextHop;
use relay_cell::{Opened, command, read_head};
use std::alloc::{AllocError, Global};

/// How many RELAY_EARLY cells a circuit takes (tor-spec, "Handling RELAY_EARLY cells").
const MOST_EARLY: u8 = 8;

/// Answers about names may be kept for so many seconds.
pub(crate) const TIME_TO_LIVE: u32 = 60;

impl Circuit {
    /// A relay cell from the client's side, with this relay's layer taken off: `command` is RELAY or
    /// RELAY_EARLY. It takes memory for DATA to a live stream alone; without it nothing changes.
    #[inline(always)] // A body that is passed on is then copied to its place at the caller.
    pub fn forward(
        &mut self,
        alloc: Global,
        rules: &Rules,
        opened: &Opened,
        command: u8,
    ) -> Result<Effects, AllocError>
        requires { HasCalls self.old }
        ensures effects { IfOk result (λ outcome. (h : List Event) (body : List ℕ) → IsCircuit self.old (rules_of rules.now) h
            → IsOpened opened.now (log (rules_of rules.now) h) body
            → effects_of outcome ≡ effects (rules_of rules.now) h (Forward command body)) }
        ensures circuit { IfOk result (λ outcome. (h : List Event) (body : List ℕ) → IsCircuit self.old (rules_of rules.now) h
            → IsOpened opened.now (log (rules_of rules.now) h) body → outcome.close ≡ None
            → IsCircuit self.new (rules_of rules.now) (Forward command body ∷ h)) }
        ensures windows { self.new.windows.calls ≤ self.old.windows.calls + 1 }
        ensures places { self.new.places.calls ≤ self.old.places.calls + 1 }
        ensures packaged { self.new.packager.padding.count ≤ self.old.packager.padding.count + 1 }
        ensures limits { KeepsLimits self.old.windows self.new.windows }
        ensures err { OnErr result (self.new ≡ self.old) }
        ensures number { self.new.number ≡ self.old.number }
        ensures order { IfOk result (λ outcome. IfSome outcome.edge (λ order. (stream_of_order order).circ ≡ self.old.number)) }
        ensures memory { OnErr result (IsTrue (is_data_for_live opened.now self.old.places)) }
    {
        let Some(digest) = opened.recognised else {
            return Ok(self.for_next_hop(opened, command));
        };
        let room = if self.carries(opened) {
            Bytes::with_room(alloc, 498)?
        } else {
            Bytes::new(alloc)
        };
        let mut outcome = Effects::none();
        self.for_this_relay(rules, opened, digest, command, room, &mut outcome);
        Ok(outcome)
    }

    /// The same without taking memory: the bytes of an order go into `room`.
    #[inline(always)]
    pub fn forward_reserved(
        &mut self,
        rules: &Rules,
        opened: &Opened,
        command: u8,
        room: Bytes,
    ) -> Effects
        requires calls { HasCalls self.old }
        requires empty { room.items ≡ [] }
        requires ample { 498 ≤ room.spare }
        ensures effects { (h : List Event) (body : List ℕ) → IsCircuit self.old (rules_of rules.now) h →
            IsOpened opened.now (log (rules_of rules.now) h) body →
            effects_of result ≡ effects (rules_of rules.now) h (Forward command body) }
        ensures circuit { (h : List Event) (body : List ℕ) → IsCircuit self.old (rules_of rules.now) h →
            IsOpened opened.now (log (rules_of rules.now) h) body → result.close ≡ None →
            IsCircuit self.new (rules_of rules.now) (Forward command body ∷ h) }
        ensures windows { self.new.windows.calls ≤ self.old.windows.calls + 1 }
        ensures places { self.new.places.calls ≤ self.old.places.calls + 1 }
        ensures packaged { self.new.packager.padding.count ≤ self.old.packager.padding.count + 1 }
        ensures limits { KeepsLimits self.old.windows self.new.windows }
        ensures number { self.new.number ≡ self.old.number }
        ensures order { IfSome result.edge (λ order. (stream_of_order order).circ ≡ self.old.number) }
    {
        let Some(digest) = opened.recognised else {
            return self.for_next_hop(opened, command);
        };
        let mut outcome = Effects::none();
        self.for_this_relay(rules, opened, digest, command, room, &mut outcome);
        outcome
    }

    // Whether the cell is DATA for a stream that is live.
    fn carries(&self, opened: &Opened) -> bool
        ensures { result ≡ is_data_for_live opened.now self.now.places }
    {
        match read_head(&opened.body) {
            Some(head) => {
                opened.recognised.is_some()
                    && head.command == command::DATA
                    && self.live_place(head.stream).is_some()
            }
            None => false,
        }
    }

    // A cell that isn't recognised.
    fn for_next_hop(&mut self, opened: &Opened, command: u8) -> Effects
        requires { opened.now.recognised ≡ None }
        ensures effects { (rules : ModelRules) (h : List Event) (body : List ℕ) → IsCircuit self.old rules h →
            IsOpened opened.now (log rules h) body → effects_of result ≡ effects rules h (Forward command body) }
        ensures circuit { (rules : ModelRules) (h : List Event) (body : List ℕ) → IsCircuit self.old rules h →
            IsOpened opened.now (log rules h) body → result.close ≡ None → IsCircuit self.new rules (Forward command body ∷ h) }
        ensures orderless { result.edge ≡ None }
        ensures rest { self.new ≡ record self.old { early_cells = self.new.early_cells } }
    {
        if !self.counts(command) {
            return Effects::closing(destroy_reason::PROTOCOL);
        }
        self.passed_on(command, &opened.body)
    }

    // Counts a RELAY_EARLY, unless it is one more than a circuit takes.
    pub(crate) fn counts(&mut self, command: u8) -> bool
        ensures test { result ≡ not ((command == relay_early_command) && nat_le relay_early_limit self.old.early_cells) }
        ensures early { IsTrue result →
            self.new.early_cells ≡ (if command == relay_early_command then self.old.early_cells + 1 else self.old.early_cells) }
        ensures rest { self.new ≡ record self.old { early_cells = self.new.early_cells } }
    {
        if command != cell_command::RELAY_EARLY {
            return true;
        }
        if self.early_cells >= MOST_EARLY {
            return false;
        }
        self.early_cells += 1;
        true
    }

    // A body for another hop goes on with the command of its cell, if there is a next hop.
    fn passed_on(&self, command: u8, body: &[u8; 509]) -> Effects
        ensures effects { (log : Log) → HasParts self.now log →
            effects_of result ≡ passed_on (next_hop log) (record { command = command; body = body.now }) }
        ensures orderless { result.edge ≡ None }
    {
        match self.next_hop {
            NextHop::There => Effects {
                back: None,
                forth: Some((command, *body)),
                edge: None,
                dial: None,
                cut: false,
                close: None,
            },
            _ => Effects::closing(destroy_reason::PROTOCOL),
        }
    }
}
