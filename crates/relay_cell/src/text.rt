//! Text in payloads: host names, what stands behind their last colon, and the zero byte at the end.

ghost use Rattle.std.specs.Prelude.{◌≡◌, ◌≢◌, ℕ, ◌<◌, EachIndex, IfSome, IfNone, Some, None, length, position, slice_index};
ghost use Rattle.tor_spec.specs.Begin.{is_host_length, split_at_last_colon};
ghost use Rattle.tor_spec.specs.Text.{is_zero_byte, terminated_text};

/// The bytes in front of the first zero byte, which must be there.
#[tactic(auto, using(tor_spec::proofs::Texts::terminated_at, tor_spec::proofs::Texts::not_terminated))]
pub(crate) fn read_text(bytes: &[u8]) -> Option<&[u8]>
    ensures some { IfSome result (λ text. terminated_text bytes.now ≡ Some text.now) }
    ensures none { IfNone result (terminated_text bytes.now ≡ None) }
{
    let end = first_zero(bytes)?;
    Some(&bytes[..end])
}

fn first_zero(bytes: &[u8]) -> Option<usize>
    ensures { result ≡ position is_zero_byte bytes.now }
{
    bytes.iter().position(|byte| *byte == 0)
}

/// Whether a host name may have this many bytes.
#[tactic(auto, unfolding(tor_spec::specs::Begin::is_host_length))]
pub(crate) fn is_host_length(length: usize) -> bool
    ensures { result ≡ is_host_length length }
{
    1 <= length && length <= 255
}

/// The text in front of the last colon, which must be there, and the text behind it.
#[tactic(auto, using(tor_spec::proofs::Texts::split_at_colon, tor_spec::proofs::Texts::no_colon, tor_spec::proofs::Texts::rest_is))]
pub(crate) fn split_at_last_colon(text: &[u8]) -> Option<(&[u8], &[u8])>
    ensures some { IfSome result (λ parts. split_at_last_colon text.now ≡ Some (parts.0.now, parts.1.now)) }
    ensures none { IfNone result (split_at_last_colon text.now ≡ None) }
{
    let colon = last_colon(text)?;
    Some((&text[..colon], &text[colon + 1..]))
}

fn last_colon(text: &[u8]) -> Option<usize>
    ensures colon { IfSome result (λ i. (i < length text.now) × (slice_index text.now i ≡ 58)) }
    ensures last { IfSome result (λ i. (k : ℕ) → i < k → k < length text.now → slice_index text.now k ≢ 58) }
    ensures none { IfNone result (EachIndex text.now (λ k. slice_index text.now k ≢ 58)) }
{
    text.iter().rposition(|byte| *byte == b':')
}
