//! What a table is made with.
ghost use Rattle.std.specs.Prelude.{◌≡◌, ◌≢◌, ◌<◌, ◌≤◌, IfOk, OnErr, Err};

use std::marker::Model;
use thiserror::Error;

/// The least `pid_max`, which is the table's own rule: below 301 a namespace that has passed number
/// 300 would have none left to give, since a draw starts again at 300.
pub const LEAST_PID_MAX: u32 = 301;

/// The greatest `pid_max`, 2^22, as on a 64-bit kernel (`proc_sys_kernel(5)`).
pub const GREATEST_PID_MAX: u32 = 4_194_304;

/// What a table is made with: the bound of all numbers, and the stamp of the first call.
#[derive(Clone, Copy, Debug, PartialEq, Eq)]
pub struct Config {
    pid_max: u32,
    first_stamp: u64,
}

/// Why there is no such configuration.
#[derive(Clone, Copy, Debug, PartialEq, Eq, Error)]
pub enum ConfigFault {
    /// `pid_max` is outside 301 to 4194304.
    #[error("pid_max outside 301 to 4194304")]
    BadPidMax,
    /// `first_stamp` is 0, which is the id of the root namespace and of the root control group.
    #[error("first_stamp is 0")]
    BadFirst,
}

impl Model for Config {
    ghost use Rattle.std.specs.Prelude.{◌<◌, ◌≤◌};
    ghost use Rattle.pid_types.specs.Settings.{Settings, HasGoodPidMax};

    ghost Value = { Settings };

    ghost view = { λ a. record { pid_max = a.pid_max; first_stamp = a.first_stamp } };

    ghost invariant = { λ a. HasGoodPidMax a.pid_max × (0 < a.first_stamp) };

    ghost inverse = { λ v. record { pid_max = v.pid_max; first_stamp = v.first_stamp } };
}

impl Config {
    ghost use Rattle.pid_types.specs.Settings.{HasGoodPidMax};

    /// A configuration, or the fault that is met first: that of `pid_max`, then that of
    /// `first_stamp`.
    pub fn new(pid_max: u32, first_stamp: u64) -> Result<Config, ConfigFault>
        ensures made { IfOk result (λ c. (c.pid_max ≡ pid_max) × (c.first_stamp ≡ first_stamp)) }
        ensures good { IfOk result (λ c. HasGoodPidMax pid_max × (0 < first_stamp)) }
        ensures bad_first { result ≡ Err ConfigFault.BadFirst → HasGoodPidMax pid_max × (first_stamp ≡ 0) }
        ensures bad_pid_max { result ≡ Err ConfigFault.BadPidMax → (HasGoodPidMax pid_max → ⊥) }
    {
        if !(LEAST_PID_MAX..=GREATEST_PID_MAX).contains(&pid_max) {
            return Err(ConfigFault::BadPidMax);
        }
        if first_stamp == 0 {
            return Err(ConfigFault::BadFirst);
        }
        Ok(Config {
            pid_max,
            first_stamp,
        })
    }

    /// A `pid_max` of 32768, the kernel's default on a machine of up to 32 processors
    /// (`proc_sys_kernel(5)`), and the first stamp 1.
    pub fn default_values() -> Config
        ensures pid_max { result.pid_max ≡ 32768 }
        ensures first_stamp { result.first_stamp ≡ 1 }
    {
        Config {
            pid_max: 32768,
            first_stamp: 1,
        }
    }

    /// One above the greatest number that a namespace gives.
    pub fn pid_max(&self) -> u32
        ensures value { result ≡ self.now.pid_max }
        ensures good { HasGoodPidMax result }
    {
        self.pid_max
    }

    /// The stamp of the first call.
    pub fn first_stamp(&self) -> u64
        ensures value { result ≡ self.now.first_stamp }
        ensures above_zero { 0 < result }
    {
        self.first_stamp
    }
}

impl Default for Config {
    ghost is_default = { λ c. (c.pid_max ≡ 32768) × (c.first_stamp ≡ 1) };

    fn default() -> Config {
        Config::default_values()
    }
}
