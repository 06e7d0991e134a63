//! What the definitions of payloads mean. The calls do nothing: each contract is a law.
ghost use Rattle.std.specs.Prelude.{◌≡◌, ℕ, ◌<◌, ◌≤◌, ◌^◌, ◌↔◌, List, length, take, drop, IsSome, Some};
ghost use Rattle.std.specs.Int.{w16, from_be_bytes};
ghost use Rattle.tor_spec.specs.Extend.{create2_payload, handshake_reply, handshake_request};
ghost use Rattle.hop_handshake.specs.Payloads.{created2_payload};

/// The payload of a CREATE2 has the whole of the client's half exactly where its HLEN, the two bytes
/// behind HTYPE, is at most 505.
#[tactic(auto, using(crate::proofs::Requests::whole_up_to_505))]
pub fn requests_are_whole_by_their_length()
    ensures { (payload : List ℕ) → length payload ≡ 509 →
        IsSome (handshake_request payload) ↔ (from_be_bytes w16 (take 2 (drop 2 payload)) ≤ 505) }
{}

/// The client's half that is written into a CREATE2 is read back.
#[tactic(auto, using(crate::proofs::Requests::create2_is_read))]
pub fn requests_are_read_back()
    ensures { (htype : ℕ) (hdata : List ℕ) → htype < 2 ^ 16 → length hdata ≤ 505 →
        handshake_request (create2_payload htype hdata) ≡ Some (htype, hdata) }
{}

/// The relay's half that is written into a CREATED2 is read back.
#[tactic(auto, using(crate::proofs::Requests::created2_is_read))]
pub fn replies_are_read_back()
    ensures { (hdata : List ℕ) → length hdata ≤ 507 → handshake_reply (created2_payload hdata) ≡ Some hdata }
{}
