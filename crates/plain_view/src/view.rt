//! The plain lists, as look-ups see them.
ghost use Rattle.std.specs.Prelude.{◌≡◌, ◌++◌, [], ◌∷◌, Some, None};

use pid_types::plain::{Control, Name, Row, Space, Thread};
use std::marker::Model;

/// The plain lists of a table, and perhaps a namespace that is about to be added to them: a fork
/// into a new namespace is planned before there is room for that namespace.
#[derive(Drop)]
pub struct View<'a> {
    pub(crate) rows: &'a [Row],
    pub(crate) threads: &'a [Thread],
    pub(crate) left: &'a [Name],
    pub(crate) spaces: &'a [Space],
    pub(crate) added: Option<Space>,
    pub(crate) controls: &'a [Control],
    pub(crate) pid_max: u32,
}

impl<'a> Model for View<'a> {
    ghost use Rattle.std.specs.Prelude.{◌++◌, [], option_to_list};
    ghost use Rattle.pid_types.specs.State.{State};

    ghost Value = { State };

    ghost view = { λ v. record {
      rows = v.rows.now;
      threads = v.threads.now;
      left = v.left.now;
      spaces = v.spaces.now ++ option_to_list v.added;
      controls = v.controls.now;
      pid_max = v.pid_max;
    } };
}

impl<'a> View<'a> {
    /// The lists as they are.
    pub fn new(
        rows: &'a [Row],
        threads: &'a [Thread],
        left: &'a [Name],
        spaces: &'a [Space],
        controls: &'a [Control],
        pid_max: u32,
    ) -> View<'a>
        ensures { result ≡ record {
          rows = rows.entry.now;
          threads = threads.entry.now;
          left = left.entry.now;
          spaces = spaces.entry.now;
          controls = controls.entry.now;
          pid_max = pid_max;
        } }
    {
        View {
            rows,
            threads,
            left,
            spaces,
            added: None,
            controls,
            pid_max,
        }
    }

    /// The lists with one more namespace.
    pub fn with_space(
        rows: &'a [Row],
        threads: &'a [Thread],
        left: &'a [Name],
        spaces: &'a [Space],
        added: Space,
        controls: &'a [Control],
        pid_max: u32,
    ) -> View<'a>
        ensures { result ≡ record {
          rows = rows.entry.now;
          threads = threads.entry.now;
          left = left.entry.now;
          spaces = spaces.entry.now ++ added ∷ [];
          controls = controls.entry.now;
          pid_max = pid_max;
        } }
    {
        View {
            rows,
            threads,
            left,
            spaces,
            added: Some(added),
            controls,
            pid_max,
        }
    }
}
