//! Each table beside its plain form.

mod circids;
mod counts;
mod drawing;
mod plain_counts;
mod plain_lanes;
mod waiting;
