//! A lock whose turns are the steps of one history.
//!
//! A [`TurnLock`] is a lock round a state, for threads that each have a [`Pass`]. A turn takes the
//! lock, makes one step on the state and gives the lock back. The proofs see the steps of all turns
//! as one list, the history: each turn adds its step at the end, and each pass knows a beginning of
//! the list and which of its steps are its own. No value of it is made at run time.
//!
//! `specs/Rule.antt` has the rule that holds between any two atomic steps, and `src/rule.rt` names
//! each kind of atomic step.
#![tactic(auto)]

mod calls;
mod lock;
mod pass;
pub mod rule;
mod sleep;
mod turn;
pub mod view;

pub use lock::TurnLock;
pub use pass::Pass;
