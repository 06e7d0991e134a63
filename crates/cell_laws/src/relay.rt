//! Relay cells and their payloads (tor-spec, "Relay cells").

ghost use Rattle.std.specs.Prelude.{◌≡◌, ◌↔◌, ◌<◌, ◌≤◌, ◌^◌, ◌∷◌, [], ℕ, List, Some, length, IsTrue};
ghost use Rattle.tor_spec.specs.Begin.{port_of_text};
ghost use Rattle.tor_spec.specs.CellStream.{IsBytes};
ghost use Rattle.tor_spec.specs.Connected.{ConnectedTo, connected_address};
ghost use Rattle.tor_spec.specs.Ends.{end_reason, truncated_reason};
ghost use Rattle.tor_spec.specs.Extend.{Extend, extend_request, handshake_reply, handshake_request};
ghost use Rattle.tor_spec.specs.RelayCell.{RelayHead, relay_head, fits_length, payload_of};
ghost use Rattle.tor_spec.specs.Resolve.{Answer, resolved_answers, resolved_payload};
ghost use Rattle.tor_spec.specs.Sendme.{sendme_proof};
ghost use Rattle.cell_laws.specs.Body.{SpellsBody};
ghost use Rattle.cell_laws.specs.Extends.{SpellsExtend};
ghost use Rattle.cell_laws.specs.Payloads.{SpellsConnected, SpellsProof, SpellsEnd, SpellsTruncated, SpellsReply, SpellsRequest};
ghost use Rattle.cell_laws.specs.Ports.{SpellsPort};
ghost use Rattle.cell_laws.specs.Resolved.{IsAnswer, SpellsAnswers};

/// A body of 509 bytes whose Length fits spells the head and the payload that are read from it.
pub fn bodies_are_read_as_spelled()
    ensures read { (body : List ℕ) (head : RelayHead) (payload : List ℕ) → SpellsBody body head payload →
        IsTrue (fits_length body) × (relay_head body ≡ head) × (payload_of body ≡ payload) }
    ensures spelled { (body : List ℕ) → IsBytes body → length body ≡ 509 → IsTrue (fits_length body) →
        SpellsBody body (relay_head body) (payload_of body) }
{}

/// The port that is read from a text in BEGIN is the one that it spells, zeros in front of it included;
/// where none is read, it spells none.
pub fn ports_are_read_as_spelled()
    ensures { (text : List ℕ) (port : ℕ) → SpellsPort text port ↔ (port_of_text text ≡ Some port) }
{}

/// What is read from a CONNECTED is what it spells; where nothing is read, it spells nothing.
pub fn connected_addresses_are_read_as_spelled()
    ensures { (payload : List ℕ) (to : ConnectedTo) → IsBytes payload →
        SpellsConnected payload to ↔ (connected_address payload ≡ Some to) }
{}

/// The digest that is read from a circuit's SENDME is the one that it spells; where none is read, it
/// spells none.
pub fn proofs_are_read_as_spelled()
    ensures { (payload proof : List ℕ) → SpellsProof payload proof ↔ (sendme_proof payload ≡ Some proof) }
{}

/// The reasons that are read from END and TRUNCATED are those that they spell.
pub fn reasons_are_read_as_spelled()
    ensures ends { (payload : List ℕ) (reason : ℕ) → SpellsEnd payload reason ↔ (end_reason payload ≡ reason) }
    ensures truncated { (payload : List ℕ) (reason : ℕ) → SpellsTruncated payload reason ↔ (truncated_reason payload ≡ reason) }
{}

/// A reason that is written is read back.
#[tactic(auto, unfolding(tor_spec::specs::Ends::end_reason, tor_spec::specs::Ends::truncated_reason))]
pub fn reasons_are_read_back()
    ensures ends { (reason : ℕ) → end_reason (reason ∷ []) ≡ reason }
    ensures truncated { (reason : ℕ) → truncated_reason (reason ∷ []) ≡ reason }
{}

/// The answer to a handshake that is read from EXTENDED2 or CREATED2 is the one that it spells; where
/// none is read, it spells none.
pub fn replies_are_read_as_spelled()
    ensures { (payload handshake : List ℕ) → IsBytes payload →
        SpellsReply payload handshake ↔ (handshake_reply payload ≡ Some handshake) }
{}

/// The client's half of a handshake that is read from CREATE2 is the one that it spells; where none is
/// read, it spells none.
pub fn requests_are_read_as_spelled()
    ensures { (payload : List ℕ) (handshake_type : ℕ) (handshake : List ℕ) → IsBytes payload →
        SpellsRequest payload handshake_type handshake ↔ (handshake_request payload ≡ Some (handshake_type, handshake)) }
{}

/// What is read from an EXTEND2 is what it spells; where nothing is read, it spells nothing.
pub fn extends_are_read_as_spelled()
    ensures { (payload : List ℕ) (request : Extend) → IsBytes payload →
        SpellsExtend payload request ↔ (extend_request payload ≡ Some request) }
{}

/// A RESOLVED that is written spells its one answer, only bytes spell answers, and no payload spells two
/// lists of them.
pub fn answers_have_one_spelling()
    ensures written { (answer : Answer) → IsAnswer answer →
        SpellsAnswers (resolved_payload answer.kind answer.value answer.ttl) (answer ∷ []) }
    ensures bytes { (payload : List ℕ) (answers : List Answer) → SpellsAnswers payload answers → IsBytes payload }
    ensures one { (payload : List ℕ) (answers others : List Answer) →
        SpellsAnswers payload answers → SpellsAnswers payload others → answers ≡ others }
{}

/// The answers that are read from a RESOLVED are those that it spells; where none are read, it spells none.
pub fn answers_are_read_as_spelled()
    ensures { (payload : List ℕ) (answers : List Answer) → IsBytes payload →
        SpellsAnswers payload answers ↔ (resolved_answers payload ≡ Some answers) }
{}
