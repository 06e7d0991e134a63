//! The payloads that open a link (tor-spec, "Negotiating versions", "NETINFO cells").

ghost use Rattle.std.specs.Prelude.{◌≡◌, ◌↔◌, ℕ, ◌%◌, ◌<◌, ◌^◌, List, Option, length, IsTrue};
ghost use Rattle.std.specs.List.{AllByRecursion};
ghost use Rattle.tor_spec.specs.CellStream.{IsBytes};
ghost use Rattle.tor_spec.specs.Netinfo.{is_netinfo, silent_netinfo};
ghost use Rattle.tor_spec.specs.Versions.{versions_of, versions_payload, highest_common};
ghost use Rattle.cell_laws.specs.Netinfo.{SpellsNetinfo};
ghost use Rattle.cell_laws.specs.Versions.{SpellsVersions, IsHighest};

/// The list of versions that is read from a payload of an even number of bytes is the one that it
/// spells; one of an odd number spells none.
pub fn versions_are_read_as_spelled()
    ensures { (payload versions : List ℕ) → IsBytes payload →
        SpellsVersions payload versions ↔ ((length payload % 2 ≡ 0) × (versions_of payload ≡ versions)) }
{}

/// A list of versions that is written is read back.
pub fn versions_are_read_back()
    ensures { (versions : List ℕ) → AllByRecursion (λ v. v < 2 ^ 16) versions →
        versions_of (versions_payload versions) ≡ versions }
{}

/// The version that two sides take is the highest that both speak, and there is none exactly where
/// they have none in common.
pub fn highest_common_version_is_the_highest()
    ensures { (ours theirs : List ℕ) (version : Option ℕ) →
        IsHighest ours theirs version ↔ (highest_common ours theirs ≡ version) }
{}

/// A payload is taken for NETINFO's exactly where it spells one.
pub fn netinfos_are_read_as_spelled()
    ensures { (payload : List ℕ) → SpellsNetinfo payload ↔ IsTrue (is_netinfo payload) }
{}

/// The NETINFO that is sent is taken for one.
pub fn own_netinfo_is_read_back()
    ensures { IsTrue (is_netinfo silent_netinfo.payload) }
{}
