//! The rows of a text, in little room: the numbers of all names stand one behind another, and a parent, a group or a
//! session that is that of the row before, as most are, has the same place.
ghost use Rattle.std.specs.Prelude.{◌≡◌, ◌++◌, ◌∷◌, ◌<◌, ◌≤◌, ◌-◌, [], true, ℕ, List, length, slice_get, option_map};
ghost use Rattle.std.specs.{Prelude.{Some, IfSome, IfOk, OnOk, OnErr, IsTrue, nat_lt}, List.{list_all}};
ghost use Rattle.{
  pid_types.specs.declared.plain.Row.{Row},
  table_text.specs.declared.rows.Line.{Line},
  table_text.specs.Rows.{name_in, row_in, IsWithin, IsLineWithin, AreWithin, IsGrown, PlacesName},
};

use arrayvec::ArrayVec;
use pid_types::keys::Pid;
use pid_types::plain::{LEVELS, Life, Name, Row};
use std::alloc::{AllocError, Global};
use std::marker::Model;

/// Where the numbers of a name stand, and the id of its namespace.
#[derive(Clone, Copy)]
struct Place {
    space: u64,
    start: u32,
    count: u8,
}

/// A row, with the places of its names.
#[derive(Clone, Copy)]
struct Line {
    name: Place,
    parent: Option<Place>,
    group: Place,
    session: Place,
    executed: bool,
    life: Life,
    home: u64,
    children_space: u64,
    subreaper: bool,
}

/// Rows in the order of their lines. Each takes some 100 bytes, and four for each number of its own name, and of a
/// parent, a group or a session that the row before has not.
#[derive(Drop)]
pub struct Rows {
    lines: Vec<Line>,
    numbers: Vec<Pid>,
}

impl Model for Rows {
    ghost use Rattle.std.specs.Prelude.{List, length};
    ghost use Rattle.pid_types.specs.declared.plain.Row.{Row};

    ghost Value = { List Row };

    ghost use Rattle.table_text.specs.Rows.{rows_in, AreWithin};

    ghost view = { λ r. rows_in r.numbers.items r.lines.items };

    ghost invariant = { λ r. AreWithin (length r.numbers.items) r.lines.items };
}

/// The numbers that stand at a place.
fn numbers_at(numbers: &[Pid], place: Place) -> &[Pid]
    requires { IsWithin (length numbers.now) place }
    ensures { result.now ≡ (name_in numbers.now place).numbers.items }
{
    let start = place.start as usize;
    &numbers[start..start + usize::from(place.count)]
}

/// Writes numbers over others.
fn write_numbers(told: &[Pid], numbers: &mut ArrayVec<Pid, LEVELS>)
    requires { length told.now ≤ 33 }
    ensures { numbers.new.items ≡ told.now }
{
    // As many as there were are one copy.
    if numbers.len() == told.len() {
        numbers.as_mut_slice().copy_from_slice(told);
        return;
    }
    numbers.clear();
    if numbers.try_extend_from_slice(told).is_err() {
        unreachable!()
    }
}

/// Writes the name at a place over another.
fn write_name(numbers: &[Pid], place: Place, name: &mut Name)
    requires { IsWithin (length numbers.now) place }
    ensures { name.new ≡ name_in numbers.now place }
{
    name.space = place.space;
    write_numbers(numbers_at(numbers, place), &mut name.numbers);
}

/// A name to be written over.
pub(crate) fn no_name() -> Name {
    Name {
        space: 0,
        numbers: ArrayVec::new(),
    }
}

/// Writes the name of a parent over another.
fn write_parent(numbers: &[Pid], place: Option<Place>, parent: &mut Option<Name>)
    requires { IfSome place (IsWithin (length numbers.now)) }
    ensures { parent.new ≡ option_map (name_in numbers.now) place }
{
    match place {
        Some(place) => write_name(numbers, place, parent.get_or_insert_with(no_name)),
        None => *parent = None,
    }
}

/// Writes the row of a line over another.
fn write_row(numbers: &[Pid], line: &Line, row: &mut Row)
    requires { IsLineWithin (length numbers.now) line.now }
    ensures { row.new ≡ row_in numbers.now line.now }
{
    write_name(numbers, line.name, &mut row.name);
    write_parent(numbers, line.parent, &mut row.parent);
    write_name(numbers, line.group, &mut row.group);
    write_name(numbers, line.session, &mut row.session);
    row.executed = line.executed;
    row.life = line.life;
    row.home = line.home;
    row.children_space = line.children_space;
    row.subreaper = line.subreaper;
}

/// Whether the two places are one.
fn is_same(place: Place, other: Place) -> bool
    ensures { result ≡ true → place ≡ other }
{
    if place.space != other.space {
        return false;
    }
    if place.start != other.start {
        return false;
    }
    place.count == other.count
}

/// Whether the two parents are there, and have one place.
fn is_same_parent(place: Option<Place>, other: Option<Place>) -> bool
    ensures { result ≡ true → place ≡ other }
{
    match (place, other) {
        (Some(place), Some(other)) => is_same(place, other),
        _ => false,
    }
}

/// Writes the name at a place over the one at another. Where the places are one, nothing is written.
fn write_other_name(numbers: &[Pid], place: Place, before: Place, name: &mut Name)
    requires within { IsWithin (length numbers.now) place }
    requires before { name.old ≡ name_in numbers.now before }
    ensures { name.new ≡ name_in numbers.now place }
{
    if is_same(place, before) {
        return;
    }
    write_name(numbers, place, name);
}

/// Writes the name of a parent over another, likewise.
fn write_other_parent(
    numbers: &[Pid],
    place: Option<Place>,
    before: Option<Place>,
    parent: &mut Option<Name>,
)
    requires within { IfSome place (IsWithin (length numbers.now)) }
    requires before { parent.old ≡ option_map (name_in numbers.now) before }
    ensures { parent.new ≡ option_map (name_in numbers.now) place }
{
    if is_same_parent(place, before) {
        return;
    }
    write_parent(numbers, place, parent);
}

/// Writes the row of a line over that of another. Names that both have at one place, as most groups, stay.
fn write_other_row(numbers: &[Pid], line: &Line, before: &Line, row: &mut Row)
    requires within { IsLineWithin (length numbers.now) line.now }
    requires before { row.old ≡ row_in numbers.now before.now }
    ensures { row.new ≡ row_in numbers.now line.now }
{
    write_name(numbers, line.name, &mut row.name);
    write_other_parent(numbers, line.parent, before.parent, &mut row.parent);
    write_other_name(numbers, line.group, before.group, &mut row.group);
    write_other_name(numbers, line.session, before.session, &mut row.session);
    row.executed = line.executed;
    row.life = line.life;
    row.home = line.home;
    row.children_space = line.children_space;
    row.subreaper = line.subreaper;
}

/// Whether the name stands at the place.
fn stands_at(numbers: &[Pid], place: Place, name: &Name) -> bool
    requires { IsWithin (length numbers.now) place }
    ensures { IsTrue result → name_in numbers.now place ≡ name.now }
{
    place.space == name.space && numbers_at(numbers, place) == name.numbers.as_slice()
}

/// The place of a name behind all others.
fn add_name(numbers: &mut Vec<Pid>, name: &Name) -> Result<Place, AllocError>
    ensures { PlacesName numbers.old.items numbers.new.items result name.now }
{
    let added = name.numbers.as_slice();
    let (Ok(start), Ok(count)) = (u32::try_from(numbers.len()), u8::try_from(added.len())) else {
        return Err(AllocError);
    };
    numbers.extend_from_slice(added)?;
    Ok(Place {
        space: name.space,
        start,
        count,
    })
}

/// The place of a name: the last one, where it stands there, and else one behind all others.
fn place_of(numbers: &mut Vec<Pid>, name: &Name, last: Place) -> Result<Place, AllocError>
    requires { IsWithin (length numbers.old.items) last }
    ensures { PlacesName numbers.old.items numbers.new.items result name.now }
{
    if stands_at(numbers, last, name) {
        return Ok(last);
    }
    add_name(numbers, name)
}

/// The place of a parent's name, likewise.
fn parent_place(
    numbers: &mut Vec<Pid>,
    parent: &Option<Name>,
    last: Place,
) -> Result<Option<Place>, AllocError>
    requires { IsWithin (length numbers.old.items) last }
    ensures grown { IsGrown numbers.old.items numbers.new.items }
    ensures within { IfOk result (λ place. IfSome place (IsWithin (length numbers.new.items))) }
    ensures named { IfOk result (λ place. option_map (name_in numbers.new.items) place ≡ parent.now) }
{
    match parent {
        Some(name) => Ok(Some(place_of(numbers, name, last)?)),
        None => Ok(None),
    }
}

/// The line of a row: its names, and those of the line before, stand among the numbers.
fn line_of(numbers: &mut Vec<Pid>, row: &Row, last: &Line) -> Result<Line, AllocError>
    requires { IsLineWithin (length numbers.old.items) last.now }
    ensures grown { IsGrown numbers.old.items numbers.new.items }
    ensures within { IfOk result (λ line. IsLineWithin (length numbers.new.items) line) }
    ensures row { IfOk result (λ line. row_in numbers.new.items line ≡ row.now) }
{
    let name = add_name(numbers, &row.name)?;
    let parent = parent_place(numbers, &row.parent, last.parent.unwrap_or(last.name))?;
    let group = place_of(numbers, &row.group, last.group)?;
    let session = place_of(numbers, &row.session, last.session)?;
    Ok(Line {
        name,
        parent,
        group,
        session,
        executed: row.executed,
        life: row.life,
        home: row.home,
        children_space: row.children_space,
        subreaper: row.subreaper,
    })
}

/// A line whose names have no numbers.
fn no_line() -> Line
    ensures { (all : ℕ) → IsLineWithin all result }
{
    let nowhere = Place {
        space: 0,
        start: 0,
        count: 0,
    };
    Line {
        name: nowhere,
        parent: None,
        group: nowhere,
        session: nowhere,
        executed: false,
        life: Life::Live,
        home: 0,
        children_space: 0,
        subreaper: false,
    }
}

/// The last of the lines; where there is none, one whose names have no numbers.
fn last_line(lines: &[Line]) -> Line
    ensures { (all : ℕ) → AreWithin all lines.now → IsLineWithin all result }
{
    match lines.last() {
        Some(line) => *line,
        None => no_line(),
    }
}

/// Whether the children of all lines go into namespaces with ids below the stamp.
fn are_children_below(lines: &[Line], stamp: u64) -> bool
    ensures { result ≡ list_all (λ (l : Line). nat_lt l.children_space stamp) lines.now }
{
    lines.iter().all(|line| line.children_space < stamp)
}

impl Rows {
    /// No rows.
    pub fn new(alloc: Global) -> Rows
        ensures { result ≡ [] }
    {
        Rows {
            lines: Vec::new(alloc),
            numbers: Vec::new(alloc),
        }
    }

    /// How many rows there are.
    pub fn len(&self) -> usize
        ensures { result ≡ length self.now }
    {
        self.lines.len()
    }

    /// Adds a row behind the others. The error is want of memory, or of places: all names together have room for 2^32
    /// numbers.
    pub fn add(&mut self, row: &Row) -> Result<(), AllocError>
        ensures added { OnOk result (self.new ≡ self.old ++ row.now ∷ []) }
        ensures same { OnErr result (self.new ≡ self.old) }
    {
        let last = last_line(&self.lines);
        let line = line_of(&mut self.numbers, row, &last)?;
        self.lines.push(line)?;
        Ok(())
    }

    /// Writes the row at a place over another.
    pub fn write(&self, index: usize, row: &mut Row)
        requires { index < length self.now }
        ensures { slice_get self.now index ≡ Some row.new }
    {
        write_row(self.numbers.as_slice(), &self.lines[index], row);
    }

    /// Writes the row at a place over the one before it, if there is one. It costs less than [`Rows::write`] where the
    /// parent, the group or the session is the same.
    pub fn write_next(&self, index: usize, row: &mut Row)
        requires index { index < length self.now }
        requires before { 0 < index → slice_get self.now (index - 1) ≡ Some row.old }
        ensures { slice_get self.now index ≡ Some row.new }
    {
        let numbers = self.numbers.as_slice();
        if index == 0 {
            write_row(numbers, &self.lines[index], row);
            return;
        }
        write_other_row(numbers, &self.lines[index], &self.lines[index - 1], row);
    }

    /// The first number of the row at a place.
    pub fn number(&self, index: usize) -> Option<Pid>
        requires { index < length self.now }
        ensures { IfSome (slice_get self.now index) (λ row. result ≡ slice_get row.name.numbers.items 0) }
    {
        numbers_at(self.numbers.as_slice(), self.lines[index].name)
            .first()
            .copied()
    }

    /// Whether the children of all rows go into namespaces with ids below the stamp.
    pub fn have_children_below(&self, stamp: u64) -> bool
        ensures { result ≡ list_all (λ (r : Row). nat_lt r.children_space stamp) self.now }
    {
        are_children_below(&self.lines, stamp)
    }
}
