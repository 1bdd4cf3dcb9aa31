//! What an index knows of its list of entries beside the state that its view shows: the length, the next Pid, the open Begin,
//! the live tags, and the operations that are logged and not yet shown.
//!
//! An [`Account`] judges updates and notes what was logged, so that the log can be ahead of the view: operations wait in order
//! until the owner of the view has shown them. All memory for a note is taken by [`Account::reserve`] before, so that what is
//! logged can always be noted.
#![tactic(auto)]

mod account;
mod operation;

pub use account::Account;
