//! The head of a relay cell's body, and a body that was opened.

ghost use Rattle.std.specs.Prelude.{◌≡◌, IfSome, IfNone, IsTrue, IsFalse};
ghost use Rattle.tor_spec.specs.RelayCell.{relay_head, fits_length, payload_of};
ghost use Rattle.relay_cell.specs.Head.{head_of};

/// The bytes of a head.
pub(crate) const HEAD_LEN: usize = 11;

/// The bytes of a body behind its head.
const DATA_LEN: u16 = 498;

/// The fields in front of a relay cell's payload (tor-spec, "Relay cells").
#[derive(Clone, Copy, PartialEq, Eq, Debug)]
pub struct RelayHead {
    /// What the cell asks for, as one of [`command`](crate::command).
    pub command: u8,
    /// Zero in a cell that is meant for the hop that reads it.
    pub recognized: u16,
    /// The stream that the cell belongs to; 0 for the circuit itself.
    pub stream: u16,
    /// The first four bytes of the running digest.
    pub digest: [u8; 4],
    /// The bytes of the payload, at most 498.
    pub length: u16,
}

/// A relay cell's body with a layer of encryption taken off.
#[derive(Clone, PartialEq, Eq, Debug, Drop)]
pub struct Opened {
    pub body: [u8; 509],
    /// The 20 bytes of the running digest with this body, where the body was meant for the hop
    /// that opened it.
    pub recognised: Option<[u8; 20]>,
}

/// The head of a body, or `None` exactly where its Length is above 498.
#[tactic(auto, unfolding(tor_spec::specs::RelayCell::fits_length))]
pub fn read_head(body: &[u8; 509]) -> Option<RelayHead>
    ensures some { IfSome result (λ head. head_of head ≡ relay_head body.now) }
    ensures fits { IfSome result (λ _. IsTrue (fits_length body.now)) }
    ensures none { IfNone result (IsFalse (fits_length body.now)) }
{
    let head = fields_of(body);
    if head.length <= DATA_LEN {
        Some(head)
    } else {
        None
    }
}

/// The payload of a body: as many bytes behind the head as its Length says.
#[tactic(auto, unfolding(tor_spec::specs::RelayCell::fits_length, tor_spec::specs::RelayCell::payload_of))]
pub fn payload_of(body: &[u8; 509]) -> &[u8]
    requires { IsTrue (fits_length body.now) }
    ensures { result.now ≡ payload_of body.now }
{
    let (_, data) = body.split_at(HEAD_LEN);
    &data[..fields_of(body).length as usize]
}

/// The fields of a body, whose Length may be too great.
#[tactic(auto, using(tor_spec::proofs::RelayCells::relay_head_at))]
pub(crate) fn fields_of(body: &[u8; 509]) -> RelayHead
    ensures { head_of result ≡ relay_head body.now }
{
    RelayHead {
        command: body[0],
        recognized: u16::from_be_bytes([body[1], body[2]]),
        stream: u16::from_be_bytes([body[3], body[4]]),
        digest: [body[5], body[6], body[7], body[8]],
        length: u16::from_be_bytes([body[9], body[10]]),
    }
}
