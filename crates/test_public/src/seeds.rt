//! Tables that random calls leave: each is saved, loaded and saved again, and answers further calls as one that was
//! never saved.

use crate::running::Running;
use pid_types::config::Config;
use random_calls::draft::Theme;
use random_calls::generator::{Aims, Generator};
use std::process::Abort;

/// How many runs each kind has.
const RUNS: u64 = 40;

/// How many calls are made before each look at the table.
const BETWEEN_LOOKS: u64 = 10;

/// How many looks are taken before the table is saved.
const LOOKS: u64 = 10;

/// How often a run saves the table.
const SAVES: u64 = 4;

/// How many calls both tables are asked then.
const MORE: u64 = 50;

/// Saves and loads the table, and compares what both are and answer.
fn compare(rt: &(impl AllocGlobal + Abort), table: &mut Running, generator: &mut Generator) {
    let mut loaded = table.reloaded(rt);
    for _further in 0..MORE {
        let call = generator.call();
        assert!(rt; table.call(rt, call) == loaded.call(rt, call));
    }
}

/// Makes calls with looks between them.
fn act(rt: &impl Abort, table: &mut Running, generator: &mut Generator) {
    for made in 1..=LOOKS * BETWEEN_LOOKS {
        let _reply = table.call(rt, generator.call());
        if made % BETWEEN_LOOKS == 0 {
            generator.look(table.look(rt));
        }
    }
}

/// Makes the calls of a run, and saves the table at each quarter.
fn run(rt: &(impl AllocGlobal + Abort), config: &Config, aims: Aims, seed: u64) {
    let mut table = Running::new(rt, config);
    let mut generator = Generator::new(seed, aims, table.look(rt));
    for _save in 0..SAVES {
        act(rt, &mut table, &mut generator);
        compare(rt, &mut table, &mut generator);
    }
}

/// Makes all runs of a kind.
fn run_all(rt: &(impl AllocGlobal + Abort), theme: Theme, pid_max: u32, most_tasks: usize) {
    let config = Config::new(pid_max, 1).expect(rt, "bad settings");
    let aims = Aims {
        theme,
        most_tasks,
        kept_tasks: 0,
        kept_controls: 0,
    };
    for seed in 0..RUNS {
        run(rt, &config, aims, seed);
    }
}

/// What the calls are about, the bound of numbers, and how many tasks there are at most.
static KINDS: [(Theme, u32, usize); 5] = [
    (Theme::Mixed, 32_768, 60),
    (Theme::Falls, 4_194_304, 100),
    (Theme::Numbers, 301, 60),
    (Theme::Controls, 32_768, 60),
    (Theme::Groups, 330, 60),
];

#[test]
fn loads_tables_of_seeded_calls(rt: HostRuntime) {
    for (theme, pid_max, most_tasks) in &KINDS {
        run_all(&rt, *theme, *pid_max, *most_tasks);
    }
}
