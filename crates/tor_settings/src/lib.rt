//! What the operator of a relay sets, read from a text in TOML: where it listens, how many connections and
//! workers it has, and the rules of its circuits.
//!
//! Each rule that a text has to keep is a definition over the members of its document; `specs/Rules` has them in
//! their order.
#![tactic(auto)]

mod address;
mod allowed_name;
mod fault;
mod keys;
mod lines;
mod names;
mod number_values;
mod numbers;
mod reading;
mod settings;
mod table;
mod types;

pub use allowed_name::AllowedName;
pub use fault::SettingsFault;
pub use reading::read_settings;
pub use settings::Settings;

#[cfg(test)]
mod tests;
