//! Laws about a path's answers, over every history `h` of its calls, listed newest first. The functions have
//! no code.

ghost use Rattle.std.specs.Prelude.{◌≡◌, ℕ, List, [], ◌∷◌, Some, None, true, false, take, drop, bytes_eq, length};
ghost use Rattle.crypto_spec.specs.KeyDerivation.{kdf_tor};
ghost use Rattle.tor_spec.specs.CellCommands.{relay_command, created_fast_command};
ghost use Rattle.tor_spec.specs.CircuitWindow.{circuit_start, may_package as circuit_may_package};
ghost use Rattle.circuit_model.specs.PathLayers.{PathHop, sealed_for};
ghost use Rattle.hop_handshake.specs.Opening.{cell_with};
ghost use Rattle.stream_edge.specs.declared.placed_stream.PlacedStream.{PlacedStream};
ghost use Rattle.stream_edge.specs.Streams.{may_package};
ghost use Rattle.tr_io.specs.declared.answers.ShutWhy.TheVariants.{Stream, Circuit};
ghost use Rattle.onion_client.specs.declared.close_cause.CloseCause.TheVariants.{BadKeys, Unrecognised};
ghost use Rattle.onion_client.specs.Calls.{Start, Call};
ghost use Rattle.onion_client.specs.Calls.Call.{Take, Send};
ghost use Rattle.onion_client.specs.Calls.Answer.{Hop, Closed, Gone, Shut};
ghost use Rattle.onion_client.specs.Making.{cell_for};
ghost use Rattle.onion_client.specs.PathState.{PathState, stream_of};
ghost use Rattle.onion_client.specs.Words.{path, answer};

/// A path that closed answers nothing else any more, and nothing changes it.
#[tactic(auto, using(crate::proofs::Paths::closed_answers_gone, crate::proofs::Paths::closed_stays))]
pub fn a_closed_path_is_gone()
    ensures answer { (start : Start) (h : List Call) (call : Call) →
        (path start h).is_closed ≡ true → answer start h call ≡ Gone }
    ensures path { (start : Start) (h : List Call) (call : Call) →
        (path start h).is_closed ≡ true → path start (call ∷ h) ≡ path start h }
{}

/// The CREATED_FAST that is awaited makes the first hop where its KH is that of the keys that X and its Y
/// give, and closes the path where it is another.
#[tactic(auto, using(crate::proofs::Paths::first_hop, crate::proofs::Paths::bad_first_hop))]
pub fn the_first_hop_has_the_same_keys()
    ensures same { (start : Start) (payload : List ℕ) →
        bytes_eq (take 20 (drop 20 payload)) (kdf_tor start.x (take 20 payload)).kh ≡ true →
        answer start [] (Take (cell_with start.circuit created_fast_command payload)) ≡ Hop 1 }
    ensures other { (start : Start) (payload : List ℕ) →
        bytes_eq (take 20 (drop 20 payload)) (kdf_tor start.x (take 20 payload)).kh ≡ false →
        answer start [] (Take (cell_with start.circuit created_fast_command payload))
        ≡ Closed (BadKeys (kdf_tor start.x (take 20 payload)).kh (take 20 (drop 20 payload))) }
{}

/// A relay cell that comes before there is a hop closes the path.
#[tactic(auto, using(crate::proofs::Paths::relay_before_hop))]
pub fn a_relay_cell_before_the_first_hop_closes()
    ensures { (start : Start) (body : List ℕ) →
        answer start [] (Take (cell_with start.circuit relay_command body)) ≡ Closed Unrecognised }
{}

/// No DATA goes past a window: the stream's is named first, then the circuit's, with what was packaged.
#[tactic(auto, using(crate::proofs::Paths::stream_shut, crate::proofs::Paths::circuit_shut))]
pub fn no_data_passes_a_window()
    ensures stream { (start : Start) (h : List Call) (id : ℕ) (bytes : List ℕ) (stream : PlacedStream) →
        (path start h).is_closed ≡ false → stream_of id (path start h).streams ≡ Some stream → may_package stream ≡ false →
        answer start h (Send id bytes) ≡ Shut Stream stream.packed }
    ensures circuit { (start : Start) (h : List Call) (id : ℕ) (bytes : List ℕ) (stream : PlacedStream) →
        (path start h).is_closed ≡ false → stream_of id (path start h).streams ≡ Some stream → may_package stream ≡ true →
        circuit_may_package circuit_start (path start h).window ≡ false →
        answer start h (Send id bytes) ≡ Shut Circuit (length (path start h).window.packaged) }
{}

/// On a path of one hop and without padding a body is sealed as by that hop's layer alone.
#[tactic(auto, using(crate::proofs::Paths::one_hop_cell))]
pub fn one_hop_seals_by_its_layer_alone()
    ensures { (p : PathState) (hop : PathHop) (command : ℕ) (body : List ℕ) →
        p.hops ≡ hop ∷ [] → p.pad ≡ None →
        cell_for p command body ≡ cell_with p.circuit command (sealed_for [] hop body) }
{}
