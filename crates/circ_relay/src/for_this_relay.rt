// Recognised relay cells, and the relay messages in them.

ghost use Rattle.std.specs.Prelude.{◌≡◌, ◌≢◌, ℕ, ◌+◌, ◌≤◌, [], ◌∷◌, List, position, is_some, Some, None, IsTrue, IfSome};
ghost use Rattle.tor_spec.specs.RelayCell.{data_command};
ghost use Rattle.circuit_model.specs.Events.{Event};
ghost use Rattle.circuit_model.specs.declared.event.Event.TheVariants.{Forward};
ghost use Rattle.circuit_model.specs.Log.{Log, Message as ModelMessage, no_effects};
ghost use Rattle.circuit_model.specs.Effects.{effects_after, message_effects};
ghost use Rattle.circuit_model.specs.Words.{effects, log};
ghost use Rattle.sendme_windows.specs.WindowsState.{KeepsLimits};
ghost use Rattle.stream_edge.specs.Streams.{is_live_as};
ghost use Rattle.circ_relay.specs.BroughtMessages.{IsBrought, IsNextCell, after_cell};
ghost use Rattle.circ_relay.specs.OpenedBodies.{is_data_for_live};
ghost use Rattle.circ_relay.specs.EdgeEvents.{stream_of_order};
ghost use Rattle.circ_relay.specs.CircuitOfLog.{IsCircuit, IsMadeBy, HasCalls, HasParts};
ghost use Rattle.circ_relay.specs.OpenedBodies.{IsOpened};
ghost use Rattle.circ_relay.specs.Values.{effects_of, rules_of};

use crate::circuit::Circuit;
use crate::effects::Effects;
use crate::message::Message;
use crate::rules::Rules;
use cell_codec::{Bytes, command as cell_command, destroy_reason};
use relay_cell::{Opened, command, payload_of, read_head, stream_end};

impl Circuit {
    // A recognised cell. What it has the circuit do goes into `outcome`, where nothing is to be done yet: handed
    // from function to function as a result, its bodies would be copied each time.
    #[inline(never)]
    pub(crate) fn for_this_relay(
        &mut self,
        rules: &Rules,
        opened: &Opened,
        digest: [u8; 20],
        command: u8,
        room: Bytes,
        outcome: &mut Effects,
    )
        requires calls { HasCalls self.old }
        requires recognised { opened.now.recognised ≡ Some digest }
        requires empty { room.items ≡ [] }
        requires ample { IsTrue (is_data_for_live opened.now self.old.places) → 498 ≤ room.spare }
        requires blank { effects_of outcome.old ≡ no_effects }
        ensures effects { (h : List Event) (body : List ℕ) → IsCircuit self.old (rules_of rules.now) h →
            IsOpened opened.now (log (rules_of rules.now) h) body →
            effects_of outcome.new ≡ effects (rules_of rules.now) h (Forward command body) }
        ensures circuit { (h : List Event) (body : List ℕ) → IsCircuit self.old (rules_of rules.now) h →
            IsOpened opened.now (log (rules_of rules.now) h) body → outcome.new.close ≡ None →
            IsCircuit self.new (rules_of rules.now) (Forward command body ∷ h) }
        ensures windows { self.new.windows.calls ≤ self.old.windows.calls + 1 }
        ensures places { self.new.places.calls ≤ self.old.places.calls + 1 }
        ensures packaged { self.new.packager.padding.count ≤ self.old.packager.padding.count + 1 }
        ensures limits { KeepsLimits self.old.windows self.new.windows }
        ensures number { self.new.number ≡ self.old.number }
        ensures order { IfSome outcome.new.edge (λ order. (stream_of_order order).circ ≡ self.old.number) }
    {
        if !self.counts(command) {
            *outcome = Effects::closing(destroy_reason::PROTOCOL);
            return;
        }
        self.received(rules, opened, digest, command, room, outcome);
    }

    // A recognised cell that isn't one RELAY_EARLY too many.
    fn received(
        &mut self,
        rules: &Rules,
        opened: &Opened,
        digest: [u8; 20],
        command: u8,
        room: Bytes,
        outcome: &mut Effects,
    )
        requires calls { HasCalls self.old }
        requires recognised { opened.now.recognised ≡ Some digest }
        requires empty { room.items ≡ [] }
        requires ample { IsTrue (is_data_for_live opened.now self.old.places) → 498 ≤ room.spare }
        requires blank { effects_of outcome.old ≡ no_effects }
        ensures effects { (log : Log) (body : List ℕ) → IsNextCell opened.now log command body →
            IsMadeBy self.old (rules_of rules.now) → HasParts self.old log →
            effects_of outcome.new ≡ effects_after (rules_of rules.now) log (Forward command body) }
        ensures parts { (log : Log) (body : List ℕ) → IsNextCell opened.now log command body →
            IsMadeBy self.old (rules_of rules.now) → HasParts self.old log → outcome.new.close ≡ None →
            HasParts self.new (after_cell (rules_of rules.now) log command body) }
        ensures windows { self.new.windows.calls ≤ self.old.windows.calls + 1 }
        ensures places { self.new.places.calls ≤ self.old.places.calls + 1 }
        ensures packaged { self.new.packager.padding.count ≤ self.old.packager.padding.count + 1 }
        ensures limits { KeepsLimits self.old.windows self.new.windows }
        ensures early { self.new.early_cells ≡ self.old.early_cells }
        ensures number { self.new.number ≡ self.old.number }
        ensures order { IfSome outcome.new.edge (λ order. (stream_of_order order).circ ≡ self.old.number) }
    {
        let Some(head) = read_head(&opened.body) else {
            *outcome = Effects::closing(destroy_reason::PROTOCOL);
            return;
        };
        let message = Message {
            command: head.command,
            stream: head.stream,
            payload: payload_of(&opened.body),
            digest,
            is_early: command == cell_command::RELAY_EARLY,
        };
        self.message(rules, &message, room, outcome);
    }

    fn message(&mut self, rules: &Rules, message: &Message<'_>, room: Bytes, outcome: &mut Effects)
        requires calls { HasCalls self.old }
        requires empty { room.items ≡ [] }
        requires ample { message.now.command ≡ data_command →
            IsTrue (is_some (position (is_live_as message.now.stream) self.old.places.streams)) → 498 ≤ room.spare }
        requires blank { effects_of outcome.old ≡ no_effects }
        ensures effects { (log : Log) (command : ℕ) (body : List ℕ) (m : ModelMessage) →
            IsBrought message.now log command body m → IsMadeBy self.old (rules_of rules.now) → HasParts self.old log →
            effects_of outcome.new ≡ message_effects (rules_of rules.now) log m }
        ensures parts { (log : Log) (command : ℕ) (body : List ℕ) (m : ModelMessage) → IsBrought message.now log command body m →
            IsMadeBy self.old (rules_of rules.now) → HasParts self.old log → outcome.new.close ≡ None →
            HasParts self.new (after_cell (rules_of rules.now) log command body) }
        ensures windows { self.new.windows.calls ≤ self.old.windows.calls + 1 }
        ensures places { self.new.places.calls ≤ self.old.places.calls + 1 }
        ensures packaged { self.new.packager.padding.count ≤ self.old.packager.padding.count + 1 }
        ensures limits { KeepsLimits self.old.windows self.new.windows }
        ensures early { self.new.early_cells ≡ self.old.early_cells }
        ensures number { self.new.number ≡ self.old.number }
        ensures order { IfSome outcome.new.edge (λ order. (stream_of_order order).circ ≡ self.old.number) }
    {
        if message.command == command::DATA {
            self.data(message, room, outcome);
            return;
        }
        *outcome = self.other_message(rules, message);
    }

    // A message that isn't DATA: these are few.
    #[inline(never)]
    fn other_message(&mut self, rules: &Rules, message: &Message<'_>) -> Effects
        requires calls { HasCalls self.old }
        requires other { message.now.command ≢ data_command }
        ensures effects { (log : Log) (command : ℕ) (body : List ℕ) (m : ModelMessage) →
            IsBrought message.now log command body m → IsMadeBy self.old (rules_of rules.now) → HasParts self.old log →
            effects_of result ≡ message_effects (rules_of rules.now) log m }
        ensures parts { (log : Log) (command : ℕ) (body : List ℕ) (m : ModelMessage) → IsBrought message.now log command body m →
            IsMadeBy self.old (rules_of rules.now) → HasParts self.old log → result.close ≡ None →
            HasParts self.new (after_cell (rules_of rules.now) log command body) }
        ensures windows { self.new.windows.calls ≤ self.old.windows.calls + 1 }
        ensures places { self.new.places.calls ≤ self.old.places.calls + 1 }
        ensures packaged { self.new.packager.padding.count ≤ self.old.packager.padding.count + 1 }
        ensures limits { KeepsLimits self.old.windows self.new.windows }
        ensures early { self.new.early_cells ≡ self.old.early_cells }
        ensures number { self.new.number ≡ self.old.number }
        ensures order { IfSome result.edge (λ order. (stream_of_order order).circ ≡ self.old.number) }
    {
        match message.command {
            command::BEGIN => self.begin(rules, message),
            command::END => self.end(message),
            command::SENDME => self.sendme(message),
            command::TRUNCATE => self.truncate(),
            command::RESOLVE => self.resolve(rules, message),
            command::BEGIN_DIR => self.ending(message.stream, stream_end::NOT_DIRECTORY),
            command::EXTEND2 => self.extend(message),
            _ => Effects::none(),
        }
    }
}
