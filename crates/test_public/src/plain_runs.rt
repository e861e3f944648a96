//! Generated calls on two tables, the fast one and the plain one: each reply, the snapshots now and then, and the
//! tables that are left are compared.
//!
//! The calls, 50,000 in ten runs, are always the same. A difference is told with the run's seed, the call's place in
//! it and both replies. It is a fault too if a refusal that the runs are about was never met, or hardly anything
//! changed. Together they meet each refusal.

use crate::plain_openings::{ask_below_deepest, build_controls, build_spaces};
use crate::plain_pair::{Fault, Pair};
use crate::plain_tally::Tally;
use pid_types::config::Config;
use pid_types::plain::Plain;
use pid_types::reply::Refusal;
use random_calls::draft::Theme;
use random_calls::generator::{Aims, Generator};
use std::process::Abort;

/// How many calls a run has.
const CALLS: u32 = 5000;

/// After so many calls the snapshots are compared, and the generator is shown one.
const BETWEEN_PICTURES: u32 = 12;

/// What a run begins with.
#[derive(Clone, Copy)]
enum Opening {
    /// The root init alone.
    Root,
    /// A chain of namespaces to the deepest level, each with its init alone.
    Spaces,
    /// A chain of control groups to the deepest level.
    Controls,
}

/// A run's settings.
#[derive(Clone, Copy)]
struct Setting {
    seed: u64,
    pid_max: u32,
    opening: Opening,
    aims: Aims,
}

/// A run that begins with the root init alone.
fn from_root(seed: u64, theme: Theme, pid_max: u32, most_tasks: usize) -> Setting {
    Setting {
        seed,
        pid_max,
        opening: Opening::Root,
        aims: Aims {
            theme,
            most_tasks,
            kept_tasks: 0,
            kept_controls: 0,
        },
    }
}

/// Makes both runs, which are to meet these refusals.
fn expect_same(rt: &(impl AllocGlobal + Abort), settings: &[Setting; 2], wanted: &[Refusal]) {
    let mut tally = Tally::new();
    for setting in settings {
        run(rt, setting, &mut tally);
    }
    tally.check(rt, wanted);
}

static OF_ALL_CALLS: [Refusal; 6] = [
    Refusal::NoCaller,
    Refusal::NoTask,
    Refusal::NoChild,
    Refusal::SpaceFallen,
    Refusal::Elsewhere,
    Refusal::RootInit,
];

static OF_GROUPS: [Refusal; 5] = [
    Refusal::BadGroup,
    Refusal::OtherSession,
    Refusal::IsLeader,
    Refusal::NoGroup,
    Refusal::Executed,
];

static OF_CONTROLS: [Refusal; 6] = [
    Refusal::PidsLimit(0),
    Refusal::NoControl,
    Refusal::ControlBusy,
    Refusal::RootControl,
    Refusal::BadLimit,
    Refusal::ControlDepth,
];

#[test]
fn tables_agree(rt: HostRuntime) {
    let mixed = from_root(1, Theme::Mixed, 32_768, 120);
    let falls = from_root(2, Theme::Falls, 32_768, 150);
    expect_same(&rt, &[mixed, falls], &OF_ALL_CALLS);
    let narrow = from_root(4, Theme::Numbers, 301, 100);
    let few = from_root(5, Theme::Numbers, 310, 60);
    expect_same(&rt, &[narrow, few], &[Refusal::NoNumber(0)]);
    let narrow = from_root(7, Theme::Groups, 330, 60);
    let wide = from_root(8, Theme::Groups, 32_768, 120);
    expect_same(&rt, &[narrow, wide], &OF_GROUPS);
    let controls = from_root(6, Theme::Controls, 32_768, 100);
    expect_same(&rt, &[controls, deep_controls()], &OF_CONTROLS);
    let many = from_root(3, Theme::Falls, 4_194_304, 300);
    expect_same(&rt, &[many, deep_spaces()], &[Refusal::TooDeep]);
}

/// Namespaces at the deepest level, of which the last ones fall and are made again.
fn deep_spaces() -> Setting {
    Setting {
        seed: 9,
        pid_max: 350,
        opening: Opening::Spaces,
        aims: Aims {
            theme: Theme::Falls,
            most_tasks: 120,
            kept_tasks: 32,
            kept_controls: 0,
        },
    }
}

/// Control groups at the deepest level.
fn deep_controls() -> Setting {
    Setting {
        seed: 10,
        pid_max: 32_768,
        opening: Opening::Controls,
        aims: Aims {
            theme: Theme::Controls,
            most_tasks: 100,
            kept_tasks: 0,
            kept_controls: 60,
        },
    }
}

/// Makes one run on tables of its own.
fn run(rt: &(impl AllocGlobal + Abort), setting: &Setting, tally: &mut Tally) {
    let config = Config::new(setting.pid_max, 1).expect(rt, "bad settings");
    let mut pair = Pair::new(rt.alloc(), &config).expect(rt, "no memory");
    open(rt, &mut pair, setting.opening, tally);
    play(rt, &mut pair, setting, tally);
}

/// Makes what a run begins with.
fn open(rt: &impl Abort, pair: &mut Pair, opening: Opening, tally: &mut Tally) {
    match opening {
        Opening::Root => {}
        Opening::Spaces => {
            build_spaces(rt, pair);
            // Random callers seldom stand at the deepest level when they ask for one more.
            ask_below_deepest(rt, pair);
            tally.meet(Refusal::TooDeep);
        }
        Opening::Controls => build_controls(rt, pair),
    }
}

/// Makes the calls of a run, and compares what they leave.
fn play(rt: &impl Abort, pair: &mut Pair, setting: &Setting, tally: &mut Tally) {
    let mut generator = Generator::new(setting.seed, setting.aims, look(rt, pair));
    for ordinal in 0..CALLS {
        if ordinal % BETWEEN_PICTURES == 0 {
            generator.look(look(rt, pair));
        }
        match pair.make(generator.call()) {
            Ok(reply) => tally.count(&reply),
            Err(fault) => tell(rt, setting.seed, ordinal, &fault),
        }
    }
    let _last = look(rt, pair);
}

/// A call was answered otherwise by one table than by the other.
fn tell(rt: &impl Abort, seed: u64, ordinal: u32, fault: &Fault) {
    assert!(rt; false, "seed {seed}, call {ordinal}: {fault:?}");
}

/// What both tables show, which is to be the same.
fn look(rt: &impl Abort, pair: &Pair) -> Plain {
    pair.snapshot().expect(rt, "two states")
}
