//! Laws about what each kind of event makes of a circuit's window of DATA cells.

ghost use Rattle.std.specs.Prelude.{◌≡◌, ℕ, ◌==◌, ◌&&◌, List, [], ◌∷◌, ◌++◌, Some, None, IsTrue, IsFalse};
ghost use Rattle.tor_spec.specs.RelayCell.{data_command, sendme_command};
ghost use Rattle.tor_spec.specs.CircuitWindow.{after_packaging, after_accepting};
ghost use Rattle.circuit_model.specs.Events.{Event};
ghost use Rattle.circuit_model.specs.declared.event.Event.TheVariants.{Data, Backward, Connected, Ended, Drained, Freed, Linked, Answered, Failed};
ghost use Rattle.circuit_model.specs.Rules.{Rules};
ghost use Rattle.circuit_model.specs.Log.{Log, Message, is_closed};
ghost use Rattle.circuit_model.specs.Opened.{keys_in};
ghost use Rattle.circuit_model.specs.Places.{Place, place_at};
ghost use Rattle.circuit_model.specs.Packaged.{own_bodies, back_digest, package_of};
ghost use Rattle.circuit_model.specs.Windows.{is_data_of};
ghost use Rattle.circuit_model.specs.Received.{message_at};
ghost use Rattle.circuit_model.specs.Effects.{effects_after};
ghost use Rattle.circuit_model.specs.Words.{entry_after};
ghost use Rattle.sendme_windows.specs.Answers.{answer_to, window_after};
ghost use Rattle.circ_relay.specs.WindowOfLog.{window_of};

/// Bytes of the edge at one of the circuit's places are packaged as DATA; others leave the window.
#[tactic(auto, using(crate::proofs::WindowByEvent::edge_data_moves, crate::proofs::WindowByEvent::placeless_data_leaves))]
pub fn bytes_of_the_edge_are_packaged()
    ensures at_a_place { (rules : Rules) (log : Log) (serial : ℕ) (bytes : List ℕ) (place : Place) →
        IsFalse (is_closed log) → place_at log serial ≡ Some place →
        window_of (entry_after rules log (Data serial bytes) ∷ log)
        ≡ after_packaging (window_of log) (back_digest log (own_bodies log ++ package_of log data_command place.key.stream bytes ∷ [])) }
    ensures at_none { (rules : Rules) (log : Log) (serial : ℕ) (bytes : List ℕ) → place_at log serial ≡ None →
        window_of (entry_after rules log (Data serial bytes) ∷ log) ≡ window_of log }
{}

/// A circuit's SENDME does what the answer to it says, whether it is right or not.
#[tactic(auto, using(crate::proofs::WindowByEvent::circuit_sendme_moves))]
pub fn circuit_sendme_is_answered()
    ensures { (rules : Rules) (log : Log) (event : Event) (m : Message) →
        message_at log event ≡ Some m → m.command ≡ sendme_command → m.stream ≡ 0 →
        window_of (entry_after rules log event ∷ log) ≡ window_after (answer_to rules.least (window_of log) m.payload) (window_of log) }
{}

/// DATA from the client is counted, unless it closes the circuit.
#[tactic(auto, using(crate::proofs::WindowByEvent::data_message_moves))]
pub fn data_from_the_client_is_counted()
    ensures { (rules : Rules) (log : Log) (event : Event) (m : Message) →
        message_at log event ≡ Some m → m.command ≡ data_command → (effects_after rules log event).close ≡ None →
        window_of (entry_after rules log event ∷ log) ≡ after_accepting (window_of log) }
{}

/// What closes the circuit leaves its window, and so does what comes behind it.
#[tactic(auto, using(crate::proofs::WindowByEvent::closing_leaves, crate::proofs::WindowByEvent::closed_leaves))]
pub fn closing_leaves_the_window()
    ensures closes { (rules : Rules) (log : Log) (event : Event) (reason : ℕ) →
        keys_in event ≡ None → (effects_after rules log event).close ≡ Some reason →
        window_of (entry_after rules log event ∷ log) ≡ window_of log }
    ensures closed { (rules : Rules) (log : Log) (event : Event) → keys_in event ≡ None → IsTrue (is_closed log) →
        window_of (entry_after rules log event ∷ log) ≡ window_of log }
{}

/// An event that brings neither a message nor bytes of the edge leaves the window.
#[tactic(auto, using(crate::proofs::WindowByEvent::quiet_event_leaves))]
pub fn quiet_events_leave_the_window()
    ensures { (rules : Rules) (log : Log) (event : Event) →
        keys_in event ≡ None → message_at log event ≡ None → ((serial : ℕ) → IsFalse (is_data_of serial event)) →
        window_of (entry_after rules log event ∷ log) ≡ window_of log }
{}

/// So what the next hop sends and reports, and all that the edge reports but bytes, leaves it, even
/// where a body is packaged for it.
#[tactic(auto, using(crate::proofs::QuietEvents::quiet_events))]
pub fn reports_leave_the_window()
    ensures body { (rules : Rules) (log : Log) (body : List ℕ) →
        window_of (entry_after rules log (Backward body) ∷ log) ≡ window_of log }
    ensures connected { (rules : Rules) (log : Log) (serial : ℕ) →
        window_of (entry_after rules log (Connected serial) ∷ log) ≡ window_of log }
    ensures ended { (rules : Rules) (log : Log) (serial reason : ℕ) →
        window_of (entry_after rules log (Ended serial reason) ∷ log) ≡ window_of log }
    ensures drained { (rules : Rules) (log : Log) (serial : ℕ) →
        window_of (entry_after rules log (Drained serial) ∷ log) ≡ window_of log }
    ensures freed { (rules : Rules) (log : Log) (serial : ℕ) →
        window_of (entry_after rules log (Freed serial) ∷ log) ≡ window_of log }
    ensures linked { (rules : Rules) (log : Log) → window_of (entry_after rules log Linked ∷ log) ≡ window_of log }
    ensures answered { (rules : Rules) (log : Log) (payload : List ℕ) →
        window_of (entry_after rules log (Answered payload) ∷ log) ≡ window_of log }
    ensures failed { (rules : Rules) (log : Log) → window_of (entry_after rules log Failed ∷ log) ≡ window_of log }
{}

/// A message that is neither DATA nor a circuit's SENDME leaves the window.
#[tactic(auto, using(crate::proofs::WindowByEvent::other_message_leaves))]
pub fn other_messages_leave_the_window()
    ensures { (rules : Rules) (log : Log) (event : Event) (m : Message) →
        message_at log event ≡ Some m → IsFalse (m.command == data_command) →
        IsFalse ((m.command == sendme_command) && (m.stream == 0)) →
        window_of (entry_after rules log event ∷ log) ≡ window_of log }
{}
