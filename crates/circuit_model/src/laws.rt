//! Laws about the definitions, over every history `h` of a circuit, listed newest first.

ghost use Rattle.std.specs.Prelude.{◌≡◌, ◌≢◌, ℕ, ◌+◌, ◌*◌, ◌<◌, ◌≤◌, List, [], ◌∷◌, ◌++◌, length, map, if◌then◌else◌, Option, Some, None, IsTrue, IsFalse, option_map, option_to_list};
ghost use Rattle.std.specs.Str.{str_to_ascii_lowercase};
ghost use Rattle.tor_spec.specs.Begin.{Target, begin_target};
ghost use Rattle.tor_spec.specs.CellCommands.{relay_early_command};
ghost use Rattle.tor_spec.specs.CircuitWindow.{circuit_step};
ghost use Rattle.tor_spec.specs.Extend.{Address};
ghost use Rattle.tor_spec.specs.Reasons.{destroy_protocol, destroy_requested, end_exit_policy};
ghost use Rattle.tor_spec.specs.RelayCell.{begin_command, sendme_command, truncate_command, relay_body};
ghost use Rattle.tor_spec.specs.Sendme.{is_version_0, needs_no_proof, sendme_proof};
ghost use Rattle.crypto_spec.specs.HopLayer.{opened, opened_all, after_opening_all, sealed_all};
ghost use Rattle.circuit_model.specs.Events.{Event, CircuitCell};
ghost use Rattle.circuit_model.specs.declared.event.Event.TheVariants.{Forward, Backward, Data};
ghost use Rattle.circuit_model.specs.Rules.{Rules, allowed_address};
ghost use Rattle.circuit_model.specs.Log.{Log, Message, no_effects, closing, is_closed};
ghost use Rattle.circuit_model.specs.declared.effects.Order.TheVariants.{Reach};
ghost use Rattle.circuit_model.specs.Opened.{born_keys, keys_in, forward_count, plain_body, recognised_bodies, recognises, digest_with};
ghost use Rattle.circuit_model.specs.PathLayers.{PathHop, layered_for, digested_for};
ghost use Rattle.circuit_model.specs.NextHop.{next_hop, has_leg, is_linked, leg_count};
ghost use Rattle.circuit_model.specs.Places.{Place, place_at, places, taken_places};
ghost use Rattle.circuit_model.specs.Packaged.{back_bodies};
ghost use Rattle.circuit_model.specs.Windows.{has_command, is_data_of, circuit_packaged, circuit_grant, good_sendmes, stream_packaged, stream_grant};
ghost use Rattle.circuit_model.specs.SendmeProof.{proof_owed, is_right_sendme};
ghost use Rattle.circuit_model.specs.Received.{message_at, early_count, relay_early_limit};
ghost use Rattle.circuit_model.specs.Streams.{ending, place_limit};
ghost use Rattle.circuit_model.specs.Sent.{leg_cells, sent_to_hop, sealed, all_sealed, destroy};
ghost use Rattle.circuit_model.specs.Batches.{next_layer, events_behind, opened_each, body_of};
ghost use Rattle.circuit_model.specs.Words.{log, effects};

/// After a close there are no further effects.
#[tactic(auto, using(crate::proofs::Closing::closed_gives_nothing))]
pub fn closed_circuit_gives_nothing()
    ensures { (rules : Rules) (h : List Event) (e : Event) →
        IsTrue (is_closed (log rules h)) → effects rules h e ≡ no_effects }
{}

/// The ninth RELAY_EARLY cell closes with PROTOCOL, whatever is in it.
#[tactic(auto, using(crate::proofs::Closing::ninth_early_closes))]
pub fn ninth_relay_early_closes()
    ensures { (rules : Rules) (h : List Event) (body : List ℕ) →
        IsFalse (is_closed (log rules h)) → relay_early_limit ≤ early_count (log rules h) →
        effects rules h (Forward relay_early_command body) ≡ closing destroy_protocol }
{}

/// A circuit SENDME closes with PROTOCOL where none is owed, where it needs a proof and carries none,
/// and where it carries another proof than the one that is owed.
#[tactic(auto, using(crate::proofs::Closing::sendme_owed_none_closes, crate::proofs::Closing::sendme_without_proof_closes, crate::proofs::Closing::sendme_of_other_proof_closes))]
pub fn wrong_sendme_closes()
    ensures none_owed { (rules : Rules) (h : List Event) (e : Event) (m : Message) →
        message_at (log rules h) e ≡ Some m → m.command ≡ sendme_command → m.stream ≡ 0 →
        circuit_packaged (log rules h) < circuit_step * (good_sendmes (log rules h) + 1) →
        effects rules h e ≡ closing destroy_protocol }
    ensures no_proof { (rules : Rules) (h : List Event) (e : Event) (m : Message) →
        message_at (log rules h) e ≡ Some m → m.command ≡ sendme_command → m.stream ≡ 0 →
        IsFalse (needs_no_proof rules.least m.payload) → sendme_proof m.payload ≡ None →
        effects rules h e ≡ closing destroy_protocol }
    ensures other_proof { (rules : Rules) (h : List Event) (e : Event) (m : Message) (proof : List ℕ) →
        message_at (log rules h) e ≡ Some m → m.command ≡ sendme_command → m.stream ≡ 0 →
        sendme_proof m.payload ≡ Some proof → proof ≢ proof_owed (log rules h) (good_sendmes (log rules h) + 1) →
        effects rules h e ≡ closing destroy_protocol }
{}

/// Where the rules accept version 0, a circuit SENDME of it that is owed is right without a proof; where
/// they don't, none is.
#[tactic(auto, using(crate::proofs::Versions::version_0_is_right, crate::proofs::Versions::version_1_needs_proof))]
pub fn sendme_needs_no_proof_by_the_rules()
    ensures accepted { (rules : Rules) (h : List Event) (payload : List ℕ) →
        rules.least ≡ 0 → IsTrue (is_version_0 payload) →
        circuit_step * (good_sendmes (log rules h) + 1) ≤ circuit_packaged (log rules h) →
        IsTrue (is_right_sendme rules (log rules h) payload) }
    ensures refused { (rules : Rules) (h : List Event) (payload : List ℕ) →
        0 < rules.least → IsTrue (is_version_0 payload) →
        IsFalse (is_right_sendme rules (log rules h) payload) }
{}

/// The one circuit SENDME that is owed raises the grant by 100.
#[tactic(auto, using(crate::proofs::Counts::right_sendme_grants))]
pub fn right_sendme_grants_a_hundred()
    ensures { (rules : Rules) (h : List Event) (e : Event) (m : Message) →
        message_at (log rules h) e ≡ Some m → m.command ≡ sendme_command → m.stream ≡ 0 →
        IsTrue (is_right_sendme rules (log rules h) m.payload) →
        circuit_grant rules (log rules (e ∷ h)) ≡ circuit_grant rules (log rules h) + circuit_step }
{}

/// Packaged cells count DATA alone: an event that isn't bytes of the edge leaves the circuit's count,
/// what it has packaged and what the next hop sends notwithstanding; bytes, even none, raise it by one.
pub fn packaged_cells_count_data_alone()
    ensures others { (rules : Rules) (h : List Event) (e : Event) →
        ((serial : ℕ) → IsFalse (is_data_of serial e)) →
        circuit_packaged (log rules (e ∷ h)) ≡ circuit_packaged (log rules h) }
    ensures bytes { (rules : Rules) (h : List Event) (serial : ℕ) (bytes : List ℕ) (place : Place) →
        IsFalse (is_closed (log rules h)) → place_at (log rules h) serial ≡ Some place →
        circuit_packaged (log rules (Data serial bytes ∷ h)) ≡ circuit_packaged (log rules h) + 1 }
{}

/// The same of one stream: bytes at its place, even none, raise its count by one, and nothing else
/// moves it.
#[tactic(auto, using(crate::proofs::Counts::stream_counts_its_data, crate::proofs::Counts::other_events_leave_stream))]
pub fn a_stream_counts_its_data_alone()
    ensures others { (rules : Rules) (h : List Event) (e : Event) (serial : ℕ) → IsFalse (is_data_of serial e) →
        stream_packaged (log rules (e ∷ h)) serial ≡ stream_packaged (log rules h) serial }
    ensures bytes { (rules : Rules) (h : List Event) (serial : ℕ) (bytes : List ℕ) →
        stream_packaged (log rules (Data serial bytes ∷ h)) serial ≡ stream_packaged (log rules h) serial + 1 }
{}

/// Grants rise by SENDMEs alone: an event that brings none leaves the grants of the circuit and of
/// each stream.
#[tactic(auto, using(crate::proofs::Counts::circuit_grant_stays, crate::proofs::Counts::stream_grant_stays))]
pub fn only_sendmes_grant()
    ensures circuit { (rules : Rules) (h : List Event) (e : Event) →
        IsFalse (has_command sendme_command (message_at (log rules h) e)) →
        circuit_grant rules (log rules (e ∷ h)) ≡ circuit_grant rules (log rules h) }
    ensures stream { (rules : Rules) (h : List Event) (e : Event) (serial : ℕ) →
        IsFalse (has_command sendme_command (message_at (log rules h) e)) →
        stream_grant (log rules (e ∷ h)) serial ≡ stream_grant (log rules h) serial }
{}

/// TRUNCATE ends the current leg by DESTROY with REQUESTED, behind the cells that the leg was given
/// before; a leg gets nothing more until another next hop is linked.
#[tactic(auto, using(crate::proofs::Legs::truncate_ends_the_leg, crate::proofs::Legs::no_leg_no_cells))]
pub fn truncate_destroys_the_leg()
    ensures last { (rules : Rules) (h : List Event) (e : Event) (m : Message) →
        message_at (log rules h) e ≡ Some m → m.command ≡ truncate_command →
        IsTrue (has_leg (next_hop (log rules h))) → 0 < leg_count (log rules h) →
        leg_cells (log rules (e ∷ h)) (leg_count (log rules h)) ≡ leg_cells (log rules h) (leg_count (log rules h)) ++ destroy destroy_requested ∷ [] }
    ensures then_nothing { (rules : Rules) (h : List Event) (e : Event) (leg : ℕ) →
        IsFalse (is_linked e) → IsFalse (has_leg (next_hop (log rules h))) →
        sent_to_hop (log rules (e ∷ h)) leg ≡ sent_to_hop (log rules h) leg }
{}

/// What is sent on a leg only grows: towards the client by at most the next body, sealed by its own
/// number.
#[tactic(auto, using(crate::proofs::Legs::client_leg_grows, crate::proofs::Legs::hop_leg_grows))]
pub fn legs_only_grow()
    ensures client { (rules : Rules) (h : List Event) (e : Event) → keys_in e ≡ None →
        leg_cells (log rules (e ∷ h)) 0 ≡ leg_cells (log rules h) 0
        ++ option_to_list (option_map (sealed (born_keys (log rules h)).kb (length (back_bodies (log rules h)))) (effects rules h e).back) }
    ensures hops { (rules : Rules) (h : List Event) (e : Event) (leg : ℕ) →
        (more : List CircuitCell) × (sent_to_hop (log rules (e ∷ h)) leg ≡ sent_to_hop (log rules h) leg ++ more) }
{}

/// Bodies go back in the order of their events, at most one an event, and a body of the next hop as
/// it came. So the END of a refused BEGIN stands before a body of the next hop exactly where the
/// BEGIN came first.
#[tactic(auto, using(crate::proofs::Behind::one_body_back, crate::proofs::Behind::backward_goes_as_it_is, crate::proofs::Behind::refused_begin_ends))]
pub fn bodies_go_back_in_order()
    ensures one_each { (rules : Rules) (h : List Event) (e : Event) →
        back_bodies (log rules (e ∷ h)) ≡ back_bodies (log rules h) ++ option_to_list (effects rules h e).back }
    ensures next_hops { (rules : Rules) (h : List Event) (body : List ℕ) → IsFalse (is_closed (log rules h)) →
        back_bodies (log rules (Backward body ∷ h)) ≡ back_bodies (log rules h) ++ body ∷ [] }
    ensures refused { (rules : Rules) (h : List Event) (e : Event) (m : Message) (target : Target) →
        message_at (log rules h) e ≡ Some m → m.command ≡ begin_command → 0 < m.stream → m.place ≡ None →
        begin_target m.payload ≡ Some target → taken_places (log rules h) < place_limit → allowed_address rules target ≡ None →
        effects rules h e ≡ ending (log rules h) m.stream end_exit_policy }
{}

/// A BEGIN to an allowed name, in any letter case, makes the next place and reaches for the address
/// of the rule.
#[tactic(auto, using(crate::proofs::Streams::allowed_name_reaches))]
pub fn allowed_name_in_any_case_reaches()
    ensures { (rules : Rules) (h : List Event) (e : Event) (m : Message) (asked allowed : Target) (to : Address) →
        message_at (log rules h) e ≡ Some m → m.command ≡ begin_command → 0 < m.stream → m.place ≡ None →
        begin_target m.payload ≡ Some asked → taken_places (log rules h) < place_limit →
        str_to_ascii_lowercase asked.host ≡ str_to_ascii_lowercase allowed.host → asked.port ≡ allowed.port →
        allowed_address rules allowed ≡ Some to →
        (effects rules h e).edge ≡ Some (Reach (record { stream = m.stream; serial = length (places (log rules h)) }) to) }
{}

/// On a client's path of several hops each hop takes its own layer off: what it then has is what the
/// client would send to the hops behind it.
#[tactic(auto, using(crate::proofs::PathLayers::a_hop_takes_its_layer_off))]
pub fn each_hop_takes_its_layer_off()
    ensures { (log : Log) (hop : PathHop) (hops : List PathHop) (body : List ℕ) →
        length body ≡ 509 → (born_keys log).kf ≡ hop.keys.kf → forward_count log ≡ hop.sent_count →
        plain_body log (layered_for (hop ∷ hops) body) ≡ layered_for hops body }
{}

/// A hop recognises what the client means for it, where both have seen the same bodies before.
#[tactic(auto, using(crate::proofs::PathLayers::meant_is_recognised))]
pub fn a_hop_recognises_what_is_meant_for_it()
    ensures { (log : Log) (hop : PathHop) (command stream : ℕ) (payload : List ℕ) →
        (born_keys log).df ≡ hop.keys.df → recognised_bodies log ≡ hop.meant_bodies →
        IsTrue (recognises log (digested_for hop (relay_body command stream payload))) }
{}

/// A batch of forward bodies that is opened through the layer that the log gives comes out as the relay reads the
/// bodies one after another, and leaves the layer behind them all.
#[tactic(auto, using(crate::proofs::Ciphers::opened_is_read, crate::proofs::Ciphers::batch_opened, crate::proofs::Ciphers::batch_layer))]
pub fn a_batch_is_opened_body_by_body()
    ensures reads { (l : Log) (body : List ℕ) → opened (next_layer l) body
        ≡ record { body = plain_body l body; recognised = if recognises l (plain_body l body) then Some (digest_with l (plain_body l body)) else None } }
    ensures each { (rules : Rules) (h : List Event) (cells : List CircuitCell) →
        opened_all (next_layer (log rules h)) (map body_of cells) ≡ opened_each rules h cells }
    ensures behind { (rules : Rules) (h : List Event) (cells : List CircuitCell) →
        after_opening_all (next_layer (log rules h)) (map body_of cells) ≡ next_layer (log rules (events_behind h cells)) }
{}

/// A batch of backward bodies that is sealed from its place of the keystream on is what leaves on the leg towards the
/// client.
#[tactic(auto, using(crate::proofs::Ciphers::batch_sealed))]
pub fn a_sealed_batch_is_what_leaves()
    ensures { (key : List ℕ) (n : ℕ) (bodies : List (List ℕ)) →
        sealed_all key (509 * n) bodies ≡ map body_of (all_sealed key n bodies) }
{}
