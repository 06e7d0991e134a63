ghost use Rattle.std.specs.Prelude.{◌≡◌};
ghost use Rattle.tor_spec.specs.Versions.{versions_of, lists_version, highest_common};
ghost use Rattle.link_negotiate.specs.Negotiation.{our_versions};

/// The link protocols that this side speaks, the lowest first: 4 has CircIDs of 4 bytes, and 5 brought
/// PADDING_NEGOTIATE.
pub const OUR_VERSIONS: [u16; 2] = [4, 5];

/// The link protocol that brought PADDING_NEGOTIATE.
pub const PADDING_NEGOTIATION: u16 = 5;

/// The highest of our link protocols that a VERSIONS payload lists.
pub fn highest_common(payload: &[u8]) -> Option<u16>
    ensures { result ≡ highest_common our_versions (versions_of payload.now) }
{
    let [lower_version, higher_version] = OUR_VERSIONS;
    if lists(payload, higher_version) {
        Some(higher_version)
    } else if lists(payload, lower_version) {
        Some(lower_version)
    } else {
        None
    }
}

/// Whether a VERSIONS payload lists this version.
pub fn lists(payload: &[u8], version: u16) -> bool
    ensures { result ≡ lists_version (versions_of payload.now) version }
{
    let mut rest_bytes = payload;
    while let [high, low, tail @ ..] = rest_bytes {
        if u16::from_be_bytes([*high, *low]) == version {
            return true;
        }
        rest_bytes = tail;
    }
    false
}
