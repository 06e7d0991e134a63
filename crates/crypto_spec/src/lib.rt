//! What the standards say of the relay's cryptography: AES-128 (FIPS 197), counter mode
//! (NIST SP 800-38A), KDF-TOR (tor-spec, "KDF-TOR") and the running digest of relay cells
//! (tor-spec, "Relay cells"). The definitions stand in `specs/`, on whole lists of bytes;
//! contracts of the code crates cite them.
#![tactic(auto)]
