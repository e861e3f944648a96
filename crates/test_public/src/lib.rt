//! Tests over public calls alone, of what no command shows: arrays by index, numbers drawn in turn, lists, queues and
//! ids by owner, the script language, the text of a table, tables that are loaded from texts, that the fast table and
//! the plain one agree, the record and the table that workers share, and the workers.
//!
//! They have a crate of their own, since a crate with tests is proved twice. It is one, since a check of tests links
//! all that they use. What a command shows is in `stored/`.
#![tactic(auto)]

#[cfg(test)]
mod answers;
#[cfg(test)]
mod arrays;
#[cfg(test)]
mod audits;
#[cfg(test)]
mod commands;
#[cfg(test)]
mod ends;
#[cfg(test)]
mod faults;
#[cfg(test)]
mod first;
#[cfg(test)]
mod full;
#[cfg(test)]
mod ids;
#[cfg(test)]
mod lines;
#[cfg(test)]
mod lists;
#[cfg(test)]
mod many;
#[cfg(test)]
mod members;
#[cfg(test)]
mod numbers;
#[cfg(test)]
mod parts;
#[cfg(test)]
mod plain_openings;
#[cfg(test)]
mod plain_pair;
#[cfg(test)]
mod plain_runs;
#[cfg(test)]
mod plain_tally;
#[cfg(test)]
mod reads;
#[cfg(test)]
mod records;
#[cfg(test)]
mod replicas;
#[cfg(test)]
mod residents;
#[cfg(test)]
mod resumed;
#[cfg(test)]
mod running;
#[cfg(test)]
mod scripts;
#[cfg(test)]
mod seeds;
#[cfg(test)]
mod snapshots;
#[cfg(test)]
mod states;
#[cfg(test)]
mod store_threads;
#[cfg(test)]
mod texts;
#[cfg(test)]
mod thread_calls;
#[cfg(test)]
mod threads;
#[cfg(test)]
mod tree;
#[cfg(test)]
mod workers;
