//! Laws about the window of DATA cells that a circuit's log has: its counts, what one more event
//! makes of it, which proof it owes and when a SENDME is due.

ghost use Rattle.std.specs.Prelude.{◌≡◌, ℕ, ◌↔◌, ◌+◌, ◌*◌, ◌<◌, ◌≤◌, ◌&&◌, Option, nat_lt, List, [], ◌∷◌, ◌++◌, length, Some, None, IsTrue, IsFalse};
ghost use Rattle.tor_spec.specs.RelayCell.{data_command, sendme_command};
ghost use Rattle.tor_spec.specs.CircuitWindow.{circuit_step, may_package, fresh_window, after_packaging, after_acknowledging, after_accepting, is_sendme_due, next_owed};
ghost use Rattle.kdf_tor.specs.declared.LayerKeys.{LayerKeys};
ghost use Rattle.circuit_model.specs.Events.{Event, CircuitCell};
ghost use Rattle.circuit_model.specs.declared.event.Event.TheVariants.{Born};
ghost use Rattle.circuit_model.specs.Rules.{Rules};
ghost use Rattle.circuit_model.specs.Log.{Log};
ghost use Rattle.circuit_model.specs.Opened.{born_keys, keys_in};
ghost use Rattle.circuit_model.specs.Packaged.{packaged_by, own_bodies, back_digest};
ghost use Rattle.circuit_model.specs.Windows.{is_data_body, is_data_of, packs_data, is_accepted, has_stream, accepted_data, good_sendmes, circuit_packaged, circuit_grant};
ghost use Rattle.circuit_model.specs.SendmeProof.{is_right_sendme, proof_owed as proof_with_number};
ghost use Rattle.circuit_model.specs.Effects.{effects_after};
ghost use Rattle.circuit_model.specs.Words.{entry_after};
ghost use Rattle.sendme_windows.specs.Answers.{answer_to};
ghost use Rattle.sendme_windows.specs.declared.proof_answer.ProofAnswer.TheVariants.{Good};
ghost use Rattle.circ_relay.specs.WindowOfLog.{window_of, is_good};

/// The window's counts are those of the log.
#[tactic(auto, using(crate::proofs::WindowMoves::packaged_count, crate::proofs::WindowMoves::room_of_log))]
pub fn window_has_the_counts_of_the_log()
    ensures packaged { (log : Log) → length (window_of log).packaged ≡ circuit_packaged log }
    ensures room { (rules : Rules) (log : Log) →
        may_package rules.window (window_of log) ≡ nat_lt (circuit_packaged log) (circuit_grant rules log) }
{}

/// A circuit that was just opened has packaged, accepted and acknowledged nothing.
#[tactic(auto, using(crate::proofs::WindowMoves::opening_is_fresh))]
pub fn opening_has_a_fresh_window()
    ensures { (rules : Rules) (reply : CircuitCell) (keys : LayerKeys) (pad : Option (List ℕ)) →
        window_of (entry_after rules [] (Born reply keys pad) ∷ []) ≡ fresh_window }
{}

/// The keys stay those of the opening.
#[tactic(auto, using(crate::proofs::WindowMoves::event_leaves_keys))]
pub fn later_events_leave_the_keys()
    ensures { (rules : Rules) (log : Log) (event : Event) → keys_in event ≡ None →
        born_keys (entry_after rules log event ∷ log) ≡ born_keys log }
{}

/// Only bytes of the edge are packaged as DATA.
#[tactic(auto, using(crate::proofs::EventKinds::only_data_packs_data))]
pub fn only_bytes_of_the_edge_are_packaged_as_data()
    ensures { (rules : Rules) (log : Log) (event : Event) → ((serial : ℕ) → IsFalse (is_data_of serial event)) →
        IsFalse (packs_data (entry_after rules log event)) }
{}

/// A DATA that is packaged adds the running digest with it, and nothing else.
#[tactic(auto, using(crate::proofs::WindowMoves::packaging_moves))]
pub fn packaged_data_adds_its_digest()
    ensures { (rules : Rules) (log : Log) (event : Event) (body : List ℕ) →
        packaged_by event (effects_after rules log event).back ≡ Some body → IsTrue (is_data_body (Some body)) →
        window_of (entry_after rules log event ∷ log)
        ≡ after_packaging (window_of log) (back_digest log (own_bodies log ++ body ∷ [])) }
{}

/// A circuit's SENDME that doesn't close it acknowledges a hundred DATA, and does nothing else.
#[tactic(auto, using(crate::proofs::WindowMoves::sendme_moves))]
pub fn accepted_sendme_acknowledges()
    ensures { (rules : Rules) (log : Log) (event : Event) →
        IsTrue (is_accepted sendme_command (entry_after rules log event) && has_stream 0 (entry_after rules log event).message) →
        window_of (entry_after rules log event ∷ log) ≡ after_acknowledging (window_of log) }
{}

/// A DATA message that doesn't close the circuit is counted, and nothing else is.
#[tactic(auto, using(crate::proofs::WindowMoves::data_moves))]
pub fn accepted_data_is_counted()
    ensures { (rules : Rules) (log : Log) (event : Event) →
        IsTrue (is_accepted data_command (entry_after rules log event)) →
        window_of (entry_after rules log event ∷ log) ≡ after_accepting (window_of log) }
{}

/// All other events behind the opening leave the window.
#[tactic(auto, using(crate::proofs::WindowMoves::others_leave))]
pub fn other_events_leave_the_window()
    ensures { (rules : Rules) (log : Log) (event : Event) → keys_in event ≡ None →
        IsFalse (packs_data (entry_after rules log event)) →
        IsFalse (is_accepted sendme_command (entry_after rules log event) && has_stream 0 (entry_after rules log event).message) →
        IsFalse (is_accepted data_command (entry_after rules log event)) →
        window_of (entry_after rules log event ∷ log) ≡ window_of log }
{}

/// A SENDME is due for the DATA that is accepted next, where it is a 100th.
#[tactic(auto, using(crate::proofs::WindowMoves::due_by_log))]
pub fn sendme_is_due_at_each_hundredth()
    ensures { (log : Log) →
        is_sendme_due (after_accepting (window_of log)).accepted ≡ is_sendme_due (accepted_data log + 1) }
{}

/// The window owes the proof of the next SENDME as soon as its hundred DATA are packaged.
#[tactic(auto, using(crate::proofs::ProofOwed::owed_when_packaged, crate::proofs::ProofOwed::owed_none_before))]
pub fn next_proof_is_owed()
    ensures packaged { (log : Log) → circuit_step * (good_sendmes log + 1) ≤ circuit_packaged log →
        next_owed (window_of log) ≡ Some (proof_with_number log (good_sendmes log + 1)) }
    ensures not_yet { (log : Log) → circuit_packaged log < circuit_step * (good_sendmes log + 1) →
        next_owed (window_of log) ≡ None }
{}

/// A circuit's SENDME is right exactly where the window's answer to it is Good.
#[tactic(auto, using(crate::proofs::ProofOwed::right_by_answer, crate::proofs::ProofOwed::right_where_good))]
pub fn right_sendme_is_answered_good()
    ensures test { (rules : Rules) (log : Log) (payload : List ℕ) →
        is_right_sendme rules log payload ≡ is_good (answer_to rules.least (window_of log) payload) }
    ensures answer { (rules : Rules) (log : Log) (payload : List ℕ) →
        IsTrue (is_right_sendme rules log payload) ↔ (answer_to rules.least (window_of log) payload ≡ Good) }
{}
