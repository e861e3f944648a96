//! Calls that set one thing, over the tasks of a table: of a task (`execve(2)`, `setns(2)`, `prctl(2)`), of its process
//! group and session (`setpgid(2)`, `setsid(2)`), and of a control group (`pids.max`, `cgroup.procs`).
//!
//! Each costs a search or two by number or id, and a few writes; a move costs a step for each control group around the
//! two as well. Only a new control group takes memory.
#![tactic(auto)]

pub mod controls;
pub mod groups;
pub mod tasks;
