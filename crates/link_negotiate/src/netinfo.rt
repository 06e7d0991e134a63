ghost use Rattle.std.specs.Prelude.{◌≡◌, MatchOption, Some, None, is_some};
ghost use Rattle.tor_spec.specs.Netinfo.{has_wrong_length, behind_address, behind_addresses, behind_list, is_netinfo};

/// Bytes of the time.
const TIME: usize = 4;

/// The bytes behind the address that `bytes` begin with: its type, its length and its value.
#[tactic(auto, unfolding(tor_spec::specs::Netinfo::behind_address))]
fn skip_address(bytes: &[u8]) -> Option<&[u8]>
    ensures { MatchOption result (behind_address bytes.now ≡ None) (λ x. behind_address bytes.now ≡ Some x.now) }
{
    let [kind, size, value @ ..] = bytes else {
        return None;
    };
    if (*kind == 4 && *size != 4) || (*kind == 6 && *size != 16) {
        return None;
    }
    value.get(*size as usize..)
}

/// Whether `bytes` begin with so many addresses.
fn has_addresses(count: u8, bytes: &[u8]) -> bool
    ensures { result ≡ is_some (behind_addresses count bytes.now) }
{
    let mut rest_bytes = bytes;
    let mut addresses_left = count;
    while addresses_left > 0 {
        let Some(tail) = skip_address(rest_bytes) else {
            return false;
        };
        rest_bytes = tail;
        addresses_left -= 1;
    }
    true
}

/// Whether `bytes` begin with a number and so many addresses.
#[tactic(auto, unfolding(tor_spec::specs::Netinfo::behind_list))]
fn has_list(bytes: &[u8]) -> bool
    ensures { result ≡ is_some (behind_list bytes.now) }
{
    match bytes {
        [count, own @ ..] => has_addresses(*count, own),
        [] => false,
    }
}

/// Whether a NETINFO payload has its form: the time, the other side's address, and the list of
/// the sender's own addresses.
#[tactic(auto, using(tor_spec::proofs::NetinfoSteps::short_netinfo), unfolding(tor_spec::specs::Netinfo::is_netinfo))]
pub fn has_form(payload: &[u8]) -> bool
    ensures { result ≡ is_netinfo payload.now }
{
    if payload.len() < TIME {
        return false;
    }
    match skip_address(&payload[TIME..]) {
        Some(list) => has_list(list),
        None => false,
    }
}
