//! Numbers that decimal digits write, as the port in a BEGIN (tor-spec, "Opening streams").

ghost use Rattle.std.specs.Prelude.{◌≡◌, IsTrue};
ghost use Rattle.std.specs.Char.{is_ascii_digit};
ghost use Rattle.std.specs.List.{list_all};
ghost use Rattle.tor_spec.specs.Begin.{is_port_text, port_of_text};
ghost use Rattle.tor_spec.specs.Decimal.{decimal_value};

/// The port that one to five decimal digits write, from 1 to 65,535. That zeros may lead is a rule of this
/// relay.
#[tactic(auto, unfolding(tor_spec::specs::Begin::port_of_text))]
pub fn read_port(text: &[u8]) -> Option<u16>
    ensures { result ≡ port_of_text text.now }
{
    if !is_port_text(text) {
        return None;
    }
    let port = decimal_value(text);
    match u16::try_from(port) {
        Ok(port) if port != 0 => Some(port),
        _ => None,
    }
}

#[tactic(auto, unfolding(tor_spec::specs::Begin::is_port_text))]
fn is_port_text(text: &[u8]) -> bool
    ensures { result ≡ is_port_text text.now }
{
    1 <= text.len() && text.len() <= 5 && are_digits(text)
}

/// Whether there are decimal digits alone.
pub fn are_digits(text: &[u8]) -> bool
    ensures { result ≡ list_all is_ascii_digit text.now }
{
    text.iter().all(|byte| byte.is_ascii_digit())
}

/// The number that up to five decimal digits write.
#[tactic(auto, using(tor_spec::proofs::Texts::value_below, tor_spec::proofs::Texts::port_text))]
pub fn decimal_value(digits: &[u8]) -> u32
    requires { IsTrue (is_port_text digits.now) }
    ensures { result ≡ decimal_value digits.now }
{
    let mut value = 0;
    for digit in digits {
        value = 10 * value + u32::from(*digit - b'0');
    }
    value
}
