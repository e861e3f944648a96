//! The numbers of a table fit their types. Nothing here does anything: what a body reads is known to fit from then on.
ghost use Rattle.std.specs.Prelude.{IfSome, map};
ghost use Rattle.table_text.specs.{Texts.{control_shown, state_shown}, Ranges.{IsWord, Each}, Reading.{IsSmall}};
ghost use Rattle.table_text.specs.Reading.{IsNumbered, HasNumbers, IsHeldName, IsHeldLife, IsHeldRow, IsHeldSpace};
ghost use Rattle.table_text.specs.Reading.{IsHeldControl, IsHeldState};

use pid_types::keys::Pid;
use pid_types::plain::{ControlRow, Ended, Life, Name, Plain, Row, Space};

fn numbers_fit(_numbers: &[Pid])
    ensures { Each IsSmall _numbers.now }
{}

fn name_fits(name: &Name)
    ensures { IsNumbered name.now → IsHeldName name.now }
{
    let _space = name.space;
    numbers_fit(name.numbers.as_slice());
}

fn parent_fits(parent: &Option<Name>)
    ensures { IfSome parent.now IsNumbered → IfSome parent.now IsHeldName }
{
    if let Some(name) = parent {
        name_fits(name);
    }
}

fn life_fits(life: Life)
    ensures { IsHeldLife life }
{
    if let Life::Zombie(Ended::Exited(status)) = life {
        let _status = status;
    }
}

/// Where each identifier of a task has a number, its row is one that a line is read of.
pub fn row_fits(row: &Row)
    ensures { HasNumbers row.now → IsHeldRow row.now }
{
    name_fits(&row.name);
    parent_fits(&row.parent);
    name_fits(&row.group);
    name_fits(&row.session);
    life_fits(row.life);
    let _home = row.home;
    let _children_space = row.children_space;
}

fn outer_fits(parent: Option<u64>)
    ensures { IfSome parent IsWord }
{
    if let Some(id) = parent {
        let _id = id;
    }
}

fn limit_fits(limit: Option<u32>)
    ensures { IfSome limit IsSmall }
{
    if let Some(most) = limit {
        let _most = most;
    }
}

fn space_fits(space: &Space)
    ensures { IsHeldSpace space.now }
{
    let _id = space.id;
    outer_fits(space.parent);
    let _cursor = space.cursor;
}

fn control_fits(control: &ControlRow)
    ensures { IsHeldControl (control_shown control.now) }
{
    let _id = control.id;
    outer_fits(control.parent);
    limit_fits(control.limit);
}

fn rows_fit(rows: &[Row])
    ensures { Each HasNumbers rows.now → Each IsHeldRow rows.now }
{
    for row in rows {
        row_fits(row);
    }
}

/// Namespaces are such as lines are read of.
pub fn spaces_fit(spaces: &[Space])
    ensures { Each IsHeldSpace spaces.now }
{
    for space in spaces {
        space_fits(space);
    }
}

/// Control groups, without their counts, are such as lines are read of.
pub fn controls_fit(controls: &[ControlRow])
    ensures { Each IsHeldControl (map control_shown controls.now) }
{
    for control in controls {
        control_fits(control);
    }
}

/// Where each identifier of its tasks has a number, the state that the snapshot has is one that a text is read of.
pub fn plain_fits(plain: &Plain)
    ensures { Each HasNumbers plain.now.rows.items → IsHeldState (state_shown plain.now) }
{
    let _pid_max = plain.pid_max;
    rows_fit(&plain.rows);
    spaces_fit(&plain.spaces);
    controls_fit(&plain.controls);
}
