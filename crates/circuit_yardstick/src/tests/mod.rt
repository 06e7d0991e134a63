//! Histories of one circuit, made of seeds.

mod cells;
mod client;
mod comparing;
mod coverage;
mod driver;
mod faults;
mod histories;
mod history;
mod kinds;
mod making;
mod path;
mod random;
mod rules;
mod running;
