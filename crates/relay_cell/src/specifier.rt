//! Link specifiers of an EXTEND2 (tor-spec, "CREATE and CREATED cells").

ghost use Rattle.std.specs.Prelude.{◌≡◌, ◌∷◌, [], IfSome, IfNone, IsTrue, Some, None, length, option_map};
ghost use Rattle.tor_spec.specs.Extend.{is_specifier_length};

use crate::extend::Dest4;

/// A link specifier whose value has the length that its type wants.
#[derive(Clone, Copy)]
pub(crate) struct Specifier<'a> {
    kind: u8,
    value: &'a [u8],
    ghost well_sized: { IsTrue (is_specifier_length kind (length value.now)) },
}

impl<'a> Specifier<'a> {
    ghost use Rattle.tor_spec.specs.Extend.{first_address, specifier};
    ghost use Rattle.relay_cell.specs.Extend.{address_of};
    ghost use Rattle.relay_cell.specs.Specifier.{specifier_of};

    /// The specifier at the front of the bytes, and the bytes behind it.
    #[tactic(auto, unfolding(tor_spec::specs::Extend::specifier))]
    pub(crate) fn read(bytes: &'a [u8]) -> Option<(Specifier<'a>, &'a [u8])>
        ensures some { IfSome result (λ read. specifier bytes.now ≡ Some (specifier_of read.0, read.1.now)) }
        ensures none { IfNone result (specifier bytes.now ≡ None) }
    {
        let ([kind, size], rest) = bytes.split_first_chunk::<2>()?;
        if !is_specifier_length(*kind, *size) {
            return None;
        }
        let (value, tail) = rest.split_at_checked(usize::from(*size))?;
        Some((Specifier { kind: *kind, value }, tail))
    }

    /// The address and port, where the specifier is of the type for IPv4.
    #[tactic(auto, unfolding(tor_spec::specs::Extend::first_address, tor_spec::specs::Extend::specified_address, tor_spec::specs::Extend::is_specifier_length))]
    pub(crate) fn address(&self) -> Option<Dest4>
        ensures { option_map address_of result ≡ first_address (specifier_of self.now ∷ []) }
    {
        match self.value {
            [a, b, c, d, high, low] if self.kind == 0 => Some((
                [*a, *b, *c, *d],
                u16::from_be_bytes([*high, *low]),
            )),
            _ => None,
        }
    }
}

/// Whether a specifier of this type may have this length.
#[tactic(auto, unfolding(tor_spec::specs::Extend::is_specifier_length))]
fn is_specifier_length(kind: u8, length: u8) -> bool
    ensures { result ≡ is_specifier_length kind length }
{
    match kind {
        0 => length == 6,
        1 => length == 18,
        2 => length == 20,
        3 => length == 32,
        _ => true,
    }
}
