// A host and port, as a line of `allow` has them.

ghost use Rattle.std.specs.Prelude.{◌≡◌, Some};
ghost use Rattle.tor_settings.specs.Lines.{are_alike};
ghost use Rattle.tor_settings.specs.Values.{target_of};

/// A host and port.
#[derive(Clone, Copy)]
pub(crate) struct Name<'a> {
    pub(crate) host: &'a str,
    pub(crate) port: u16,
}

impl Name<'_> {
    /// Whether the hosts are the same, without the case of ASCII letters, and the ports.
    pub(crate) fn is_alike(&self, other: &Name<'_>) -> bool
        ensures { result ≡ are_alike (Some (target_of self.now)) (Some (target_of other.now)) }
    {
        self.host.eq_ignore_ascii_case(other.host) && self.port == other.port
    }
}
