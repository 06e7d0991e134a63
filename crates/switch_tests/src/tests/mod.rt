//! Calls of a switch and the cells that leave it, with clients of their own.

mod batches;
mod bodies;
mod client;
mod crossing;
mod dials;
mod leaving;
mod limits;
mod memory;
mod opening;
mod switch;
