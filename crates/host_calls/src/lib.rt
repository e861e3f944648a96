//! What a host does with the calls that are submitted to it: a machine without sockets, clocks and threads.
//!
//! [`HostCalls`](host::HostCalls), and a [`HostCall`](call::HostCall) for each call, are told what comes: a call, an
//! answer of the log, an entry that was read, a time, a cancel. They say what to do: what is put, who is answered, and
//! who is told that nobody knows. [`laws`] has what holds of all runs, whatever is late, lost or doubled.
//! [`foreign`] is for hosts in other languages, which put the entries, read the log, and wait.
#![tactic(auto)]

pub mod call;
pub mod foreign;
pub mod host;
pub mod laws;
pub mod numbers;
pub mod step;
