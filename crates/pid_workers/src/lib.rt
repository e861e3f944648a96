//! Workers and scripts over one record: jobs in threads at one shared table, and runs of scripts.
//!
//! [`run_workers`] opens a table, has each job run in a thread of its own, takes the seats back, and has [`audit`]
//! compare what each worker was told with what was recorded.
//!
//! [`run`] answers a script on a new table. [`run_for_table`] hands back the table too, and [`run_state`] a record with
//! the whole history of the run, 64 bytes a call. They wait for nobody but the reader and the writer. All but
//! [`run_state`] take the memory of the table alone. [`run_limited`] bounds the reads.
//!
//! [`list_text_split`] writes the list of a snapshot by two threads.
#![tactic(auto)]

mod files;
mod listed;
mod one_seat;
mod script;
mod script_table;
mod threads;

pub use files::JobFiles;
pub use listed::list_text_split;
pub use pid_script::answer::answer_text;
pub use pid_script::line::{Line, parse_line};
pub use pid_script::list::list_text;
pub use script::{MOST_READS, run, run_for_table, run_limited, run_state};
pub use script_session::job::{JobFault, MOST_JOB_BYTES, read_job};
pub use script_session::tally::{RunScriptFault, Tally};
pub use threads::{Finished, run_workers};
pub use worker_jobs::{Audit, Desk, Gate, OpenGate, RunFault, SeatDesk, Work, audit, work};
