//! Laws on the answers at the limits.
ghost use Rattle.std.specs.Prelude.{◌≡◌, ℕ, ◌==◌, ◌<◌, ◌≤◌, List, Option, Some, None, true, false};
ghost use Rattle.cell_codec.specs.declared.cell.Cell.{Cell};
ghost use Rattle.circuit_model.specs.Rules.{Rules};
ghost use Rattle.kdf_tor.specs.declared.LayerKeys.{LayerKeys};
ghost use Rattle.tr_io.specs.declared.answers.BackAnswer.TheVariants.{Stranger};
ghost use Rattle.tr_io.specs.declared.answers.Difference.TheVariants.{Note};
ghost use Rattle.tr_io.specs.declared.answers.OpenAnswer.TheVariants.{Refused};
ghost use Rattle.tr_io.specs.declared.answers.OpenRefusal.{OpenRefusal};
ghost use Rattle.tr_io.specs.declared.answers.TakeAnswer.{TakeAnswer};
ghost use Rattle.tr_io.specs.declared.answers.UpAnswer.{UpAnswer};
ghost use Rattle.tr_io.specs.declared.names.ClaimNote.{ClaimNote};
ghost use Rattle.tr_io.specs.declared.names.Dir.TheVariants.{Forth};
ghost use Rattle.tr_io.specs.declared.step.Step.{Step};
ghost use Rattle.tor_spec.specs.CellCommands.{relay_command};
ghost use Rattle.tor_spec.specs.Reasons.{destroy_resource_limit};
ghost use Rattle.switch_model.specs.Limits.{channel_limit, held_limit};
ghost use Rattle.switch_model.specs.Start.{SwitchStart};
ghost use Rattle.switch_model.specs.Names.{circ_no};
ghost use Rattle.switch_model.specs.History.Channels.{channel_at, is_live_channel, live_channels};
ghost use Rattle.switch_model.specs.History.Legs.{at};
ghost use Rattle.switch_model.specs.History.Circuit.{is_live_circuit};
ghost use Rattle.switch_model.specs.Waiting.Queues.{circuit_log, held_count};
ghost use Rattle.tr_io.specs.declared.answers.EdgeAnswer.TheVariants.{Shut};
ghost use Rattle.tr_io.specs.declared.answers.ShutWhy.{ShutWhy};
ghost use Rattle.tr_io.specs.declared.names.StreamKey.{StreamKey};
ghost use Rattle.tr_io.specs.declared.step.EventStep.{EventStep};
ghost use Rattle.tr_io.specs.declared.step.Octets.{Octets};
ghost use Rattle.circuit_model.specs.declared.places.Phase.TheVariants.{Joined};
ghost use Rattle.circuit_model.specs.Windows.{circuit_packaged, circuit_grant, stream_packaged, stream_grant};
ghost use Rattle.switch_model.specs.Answers.EdgeIn.{phase_of, edge_in_answer};
ghost use Rattle.switch_model.specs.Answers.ChannelUp.{channel_up_answer};
ghost use Rattle.switch_model.specs.Answers.OpenCircuit.{live_circuits, is_in_use, is_peers_id, open_answer};
ghost use Rattle.switch_model.specs.Answers.Take.{take_answer};
ghost use Rattle.switch_model.specs.Answers.GiveBack.{give_back_answer};

/// With 64 live channels no further one comes up.
#[tactic(auto, using(crate::proofs::Fullness::channels_full))]
pub fn sixty_five_channels_are_too_many()
    ensures { (h : List Step) → live_channels h ≡ channel_limit → channel_up_answer h ≡ UpAnswer.Full channel_limit }
{}

/// A good opening is refused where as many circuits are live as may be.
#[tactic(auto, using(crate::proofs::Fullness::circuits_full))]
pub fn a_full_switch_opens_no_circuit()
    ensures { (start : SwitchStart) (h : List Step) (chan id : ℕ) (keys : LayerKeys) →
        is_live_channel h chan ≡ true → (id == 0) ≡ false → is_in_use start.rules h chan id ≡ false →
        is_peers_id (channel_at h chan) id ≡ true → start.circuits ≤ live_circuits start.rules h →
        open_answer start h chan id (Some keys) ≡ Refused (OpenRefusal.Full start.circuits) }
{}

/// A job of another switch is a stranger's, whatever it holds.
#[tactic(auto, using(crate::proofs::Fullness::foreign_claim))]
pub fn a_foreign_job_is_a_strangers()
    ensures { (start : SwitchStart) (h : List Step) (note : ClaimNote) (place : Option ℕ) →
        (note.switch == start.name) ≡ false → give_back_answer start h note place ≡ Stranger (Note None note) }
{}

/// A RELAY cell from the client's side closes a circuit that holds 1,500 cells forth.
#[tactic(auto, using(crate::proofs::Fullness::direction_full))]
pub fn one_cell_too_many_closes()
    ensures { (rules : Rules) (h : List Step) (chan : ℕ) (cell : Cell) (c : ℕ) →
        is_live_channel h chan ≡ true → cell.command ≡ relay_command →
        at h chan cell.circ ≡ Some (record { circ = c; number = 0 }) → is_live_circuit rules h c ≡ true →
        held_count rules h c Forth ≡ held_limit → take_answer rules h chan cell ≡ TakeAnswer.Down (circ_no c) destroy_resource_limit }
{}

/// Bytes of a joined stream are shut out where the stream's window is used up, and else where the
/// circuit's is, with the count of DATA at which that window stands.
#[tactic(auto, using(crate::proofs::Fullness::stream_shut, crate::proofs::Fullness::circuit_shut))]
pub fn a_used_up_window_is_shut()
    ensures stream { (rules : Rules) (h : List Step) (key : StreamKey) (octets : Octets)
        → is_live_circuit rules h key.circ.0 ≡ true →
        phase_of (circuit_log rules h key.circ.0) key ≡ Joined →
        stream_grant (circuit_log rules h key.circ.0) key.serial ≤ stream_packaged (circuit_log rules h key.circ.0) key.serial →
        edge_in_answer rules h key (EventStep.Data octets)
        ≡ Shut ShutWhy.Stream (stream_packaged (circuit_log rules h key.circ.0) key.serial) }
    ensures circuit { (rules : Rules) (h : List Step) (key : StreamKey) (octets : Octets)
        → is_live_circuit rules h key.circ.0 ≡ true →
        phase_of (circuit_log rules h key.circ.0) key ≡ Joined →
        stream_packaged (circuit_log rules h key.circ.0) key.serial < stream_grant (circuit_log rules h key.circ.0) key.serial →
        circuit_grant rules (circuit_log rules h key.circ.0) ≤ circuit_packaged (circuit_log rules h key.circ.0) →
        edge_in_answer rules h key (EventStep.Data octets)
        ≡ Shut ShutWhy.Circuit (circuit_packaged (circuit_log rules h key.circ.0)) }
{}
