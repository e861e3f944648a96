//! Texts to what they say: [`read_text`]. Above it stands a function for each line of the form, and for the parts of
//! one.
ghost use Rattle.std.specs.Prelude.{◌≡◌, ◌++◌, ◌<◌, ◌≤◌, length, take, codes, IfSome, IfOk, OnOk, map, IfNone, OnSome};
ghost use Rattle.std.specs.{Prelude.{IfErr, drop, true, false, ◌≢◌, [], ◌∷◌, ◌+◌, ◌-◌, ℕ, List}, List.{flat_map}};
ghost use Rattle.std.specs.Result.{result_ok};
ghost use Rattle.{
  pid_script.specs.{Answers.{joined}, Lists.{space_line}},
  table_text.specs.Texts.{name_word, parent_word, rest_line, task_text_line, control_text_line, bounds_text, head_line},
  table_text.specs.Texts.{end_line, text_of},
  table_text.specs.Ranges.{IsWord, Each, IsNameOfWords, IsRowOfWords, IsSpaceOfWords, IsControlOfWords, IsStateOfWords},
  table_text.specs.Reading.{IsRead, Reads, ReadsToStop, StopsDigits, saved_state, LacksLine, LacksSettings, LacksHead},
  table_text.specs.Reading.{Lacks, LacksNumbers, LacksAny, LacksLines, IsNoText, IsHeldName, IsHeldRow, IsHeldSpace},
  table_text.specs.{Reading.{IsHeldControl}, Rests.{IsRest}, declared.fault.LoadFault.TheVariants.{NoMemory}},
};

use crate::dump::end_of;
use crate::fault::LoadFault;
use crate::rows::{Rows, no_name};
use crate::scan::{
    read_field, read_life, read_limit, read_mark, read_parent, read_small, read_small_field,
    read_word,
};
use arrayvec::ArrayVec;
use pid_types::keys::Pid;
use pid_types::plain::{Control, LEVELS, Life, Name, Row, Space};
use std::alloc::Global;

/// What a text says.
#[derive(Drop)]
pub struct Saved {
    /// One above the greatest number that a namespace gives.
    pub pid_max: u32,
    /// The stamp of the next call.
    pub stamp: u64,
    /// The tasks, in the order of their lines.
    pub rows: Rows,
    /// The namespaces, in the order of their lines.
    pub spaces: Vec<Space>,
    /// The control groups, in the order of their lines.
    pub controls: Vec<Control>,
}

/// The settings of the first line.
#[derive(Clone, Copy)]
struct Head {
    pid_max: u32,
    stamp: u64,
}

/// The bound of all numbers, and the stamp of the next call.
#[tactic(auto, unfolding(crate::specs::Texts::bounds_text))]
fn read_settings(text: &[u8], at: &mut usize) -> Option<Head>
    requires { at.old ≤ length text.now }
    ensures read { ReadsToStop text.now at.old at.new result (λ head. bounds_text head.pid_max head.stamp)
        (λ head. IsWord head.pid_max × IsWord head.stamp) }
    ensures missing { IfNone result (LacksSettings bounds_text text.now at.old) }
{
    let pid_max = read_small_field(text, at, b" pid-max ")?;
    let stamp = read_field(text, at, b" stamp ")?;
    Some(Head { pid_max, stamp })
}

/// The first line.
#[tactic(auto, unfolding(crate::specs::Texts::head_line))]
fn read_head(text: &[u8], at: &mut usize) -> Option<Head>
    requires { at.old ≤ length text.now }
    ensures read { Reads text.now at.old at.new result (λ head. head_line head.pid_max head.stamp)
        (λ head. IsWord head.pid_max × IsWord head.stamp) }
    ensures missing { IfNone result (LacksHead head_line text.now at.old) }
{
    read_word(text, at, b"pidtab table 1")?;
    let head = read_settings(text, at)?;
    read_word(text, at, b"\n")?;
    Some(head)
}

/// Numbers with a comma between, from 1 to 33 of them, are written over others.
fn read_numbers(text: &[u8], at: &mut usize, numbers: &mut ArrayVec<Pid, LEVELS>) -> Option<()>
    requires { at.old ≤ length text.now }
    ensures read { Reads text.now at.old at.new result (λ _. joined 44 numbers.new.items)
        (λ _. Each IsWord numbers.new.items) }
    ensures some { OnSome result (0 < length numbers.new.items) }
    ensures whole { OnSome result (length numbers.new.items < 33 → Lacks (codes ",") text.now at.new) }
    ensures missing { IfNone result (LacksNumbers text.now at.old) }
    ensures stops { OnSome result (StopsDigits (drop at.new text.now)) }
{
    numbers.clear();
    numbers.push(read_small(text, at)?);
    for _further in 1..LEVELS {
        if !read_mark(text, at, b",") {
            return Some(());
        }
        numbers.push(read_small(text, at)?);
    }
    Some(())
}

/// The label, and a name in one word, which is written over another.
#[tactic(auto, unfolding(crate::specs::Texts::name_word))]
fn read_name(text: &[u8], at: &mut usize, label: &[u8], name: &mut Name) -> Option<()>
    requires { at.old ≤ length text.now }
    ensures read { ReadsToStop text.now at.old at.new result (λ _. label.now ++ name_word name.new)
        (λ _. IsNameOfWords name.new) }
    ensures missing { IfNone result (LacksAny IsHeldName (λ name. label.now ++ name_word name) text.now at.old) }
{
    read_word(text, at, label)?;
    read_numbers(text, at, &mut name.numbers)?;
    name.space = read_field(text, at, b"@")?;
    Some(())
}

/// The name of a task's parent, `-` for none, which is written over another.
fn read_parent_name(text: &[u8], at: &mut usize, parent: &mut Option<Name>) -> Option<()>
    requires { at.old ≤ length text.now }
    ensures read { Reads text.now at.old at.new result (λ _. codes " parent " ++ parent_word parent.new)
        (λ _. IfSome parent.new IsNameOfWords) }
    ensures missing { IfNone result
        (LacksAny (λ p. IfSome p IsHeldName) (λ p. codes " parent " ++ parent_word p) text.now at.old) }
    ensures stops { OnSome result (IfSome parent.new (λ name. StopsDigits (drop at.new text.now))) }
{
    if read_mark(text, at, b" parent -") {
        *parent = None;
        return Some(());
    }
    read_name(text, at, b" parent ", parent.get_or_insert_with(no_name))?;
    Some(())
}

/// The rest of a task's line, behind its own name, which is written over that of another row.
fn read_rest(text: &[u8], at: &mut usize, row: &mut Row) -> Option<()>
    requires { at.old ≤ length text.now }
    ensures read { Reads text.now at.old at.new result (λ _. rest_line row.new)
        (λ _. IsNameOfWords row.old.name → IsRowOfWords row.new) }
    ensures name { row.new.name ≡ row.old.name }
    ensures missing { IfNone result (LacksLine IsHeldRow rest_line text.now at.old) }
{
    read_parent_name(text, at, &mut row.parent)?;
    read_name(text, at, b" group ", &mut row.group)?;
    read_name(text, at, b" session ", &mut row.session)?;
    row.home = read_field(text, at, b" control ")?;
    row.children_space = read_field(text, at, b" children ")?;
    row.life = read_life(text, at)?;
    row.executed = read_mark(text, at, b" executed");
    row.subreaper = read_mark(text, at, b" subreaper");
    read_word(text, at, b"\n")?;
    Some(())
}

/// Where the rest of the line before stands. It is empty where there is none.
#[derive(Clone, Copy)]
struct Rest {
    start: usize,
    end: usize,
}

/// Whether the rest of the line before stands at the place again.
fn is_again(text: &[u8], at: usize, last: Rest) -> bool
    requires at { at ≤ length text.now }
    requires order { last.start ≤ last.end }
    requires within { last.end ≤ length text.now }
    ensures some { result ≡ true → last.start < last.end }
    ensures within { result ≡ true → at + (last.end - last.start) ≤ length text.now }
    ensures read { result ≡ true → (part : List ℕ) → IsRead text.now last.start last.end part
        → IsRead text.now at (at + (last.end - last.start)) part }
{
    if last.start == last.end {
        return false;
    }
    let rest = &text[last.start..last.end];
    text[at..].starts_with(rest)
}

/// The line of a task, which is written over another row. Its rest is not read where it is that of the line before.
fn read_task(text: &[u8], at: &mut usize, row: &mut Row, last: &mut Rest) -> Option<()>
    requires at { at.old ≤ length text.now }
    requires last { IsRest text.now last.old row.old }
    ensures read { Reads text.now at.old at.new result (λ _. task_text_line row.new) (λ _. IsRowOfWords row.new) }
    ensures last { OnSome result (IsRest text.now last.new row.new) }
    ensures missing { IfNone result (LacksLine IsHeldRow task_text_line text.now at.old) }
{
    read_name(text, at, b"task ", &mut row.name)?;
    if is_again(text, *at, *last) {
        *at += last.end - last.start;
        return Some(());
    }
    let start = *at;
    read_rest(text, at, row)?;
    *last = Rest { start, end: *at };
    Some(())
}

/// A row to be written over.
fn no_row() -> Row {
    Row {
        name: no_name(),
        parent: Some(no_name()),
        group: no_name(),
        session: no_name(),
        executed: false,
        life: Life::Live,
        home: 0,
        children_space: 0,
        subreaper: false,
    }
}

/// The line of a namespace.
#[tactic(auto, unfolding(pid_script::specs::Lists::space_line))]
fn read_space(text: &[u8], at: &mut usize) -> Option<Space>
    requires { at.old ≤ length text.now }
    ensures read { Reads text.now at.old at.new result space_line IsSpaceOfWords }
    ensures missing { IfNone result (LacksLine IsHeldSpace space_line text.now at.old) }
{
    let id = read_field(text, at, b"space ")?;
    let parent = read_parent(text, at)?;
    let cursor = read_small_field(text, at, b" cursor ")?;
    let fallen = read_mark(text, at, b" fallen");
    read_word(text, at, b"\n")?;
    Some(Space {
        id,
        parent,
        cursor,
        fallen,
    })
}

/// The line of a control group.
#[tactic(auto, unfolding(crate::specs::Texts::control_text_line))]
fn read_control(text: &[u8], at: &mut usize) -> Option<Control>
    requires { at.old ≤ length text.now }
    ensures read { Reads text.now at.old at.new result control_text_line IsControlOfWords }
    ensures missing { IfNone result (LacksLine IsHeldControl control_text_line text.now at.old) }
{
    let id = read_field(text, at, b"control ")?;
    let parent = read_parent(text, at)?;
    let limit = read_limit(text, at)?;
    read_word(text, at, b"\n")?;
    Some(Control { id, parent, limit })
}

/// Whether the byte stands there.
fn begins_with(text: &[u8], at: usize, byte: u8) -> bool
    requires { at ≤ length text.now }
    ensures there { result ≡ true → drop at text.now ≡ byte ∷ drop (at + 1) text.now }
    ensures missing { result ≡ false → Lacks (byte ∷ []) text.now at }
{
    match text.get(at) {
        Some(first) => *first == byte,
        None => false,
    }
}

/// The number, counted from 1, of the line behind so many.
fn line_behind(lines: u64, more: usize) -> u64 {
    lines.saturating_add(more as u64).saturating_add(1)
}

/// The lines of the tasks, behind so many lines.
fn read_tasks(alloc: Global, text: &[u8], at: &mut usize, lines: u64) -> Result<Rows, LoadFault>
    requires { at.old ≤ length text.now }
    ensures read { Reads text.now at.old at.new (result_ok result) (flat_map task_text_line) (Each IsRowOfWords) }
    ensures over { OnOk result (Lacks (codes "t") text.now at.new) }
    ensures missing { IfErr result
        (λ fault. fault ≢ NoMemory → LacksLines IsHeldRow task_text_line 116 text.now at.old) }
{
    let mut rows = Rows::new(alloc);
    let mut row = no_row();
    let mut last = Rest { start: 0, end: 0 };
    while begins_with(text, *at, b't') {
        let Some(()) = read_task(text, at, &mut row, &mut last) else {
            return Err(LoadFault::BadLine(line_behind(lines, rows.len())));
        };
        let Ok(()) = rows.add(&row) else {
            return Err(LoadFault::NoMemory);
        };
    }
    Ok(rows)
}

/// The lines of the namespaces, behind so many lines.
fn read_spaces(
    alloc: Global,
    text: &[u8],
    at: &mut usize,
    lines: u64,
) -> Result<Vec<Space>, LoadFault>
    requires { at.old ≤ length text.now }
    ensures read { Reads text.now at.old at.new (result_ok result) (λ spaces. flat_map space_line spaces.items)
        (λ spaces. Each IsSpaceOfWords spaces.items) }
    ensures over { OnOk result (Lacks (codes "s") text.now at.new) }
    ensures missing { IfErr result
        (λ fault. fault ≢ NoMemory → LacksLines IsHeldSpace space_line 115 text.now at.old) }
{
    let mut spaces = Vec::new(alloc);
    while begins_with(text, *at, b's') {
        let Some(space) = read_space(text, at) else {
            return Err(LoadFault::BadLine(line_behind(lines, spaces.len())));
        };
        if spaces.push(space).is_err() {
            return Err(LoadFault::NoMemory);
        }
    }
    Ok(spaces)
}

/// The lines of the control groups, behind so many lines.
fn read_controls(
    alloc: Global,
    text: &[u8],
    at: &mut usize,
    lines: u64,
) -> Result<Vec<Control>, LoadFault>
    requires { at.old ≤ length text.now }
    ensures read { Reads text.now at.old at.new (result_ok result)
        (λ controls. flat_map control_text_line controls.items) (λ controls. Each IsControlOfWords controls.items) }
    ensures over { OnOk result (Lacks (codes "c") text.now at.new) }
    ensures missing { IfErr result
        (λ fault. fault ≢ NoMemory → LacksLines IsHeldControl control_text_line 99 text.now at.old) }
{
    let mut controls = Vec::new(alloc);
    while begins_with(text, *at, b'c') {
        let Some(control) = read_control(text, at) else {
            return Err(LoadFault::BadLine(line_behind(lines, controls.len())));
        };
        if controls.push(control).is_err() {
            return Err(LoadFault::NoMemory);
        }
    }
    Ok(controls)
}

/// Sees that what stands behind the place is the last line, with the digest of all before it.
fn check_end(alloc: Global, text: &[u8], at: usize, line: u64) -> Result<(), LoadFault>
    requires { at ≤ length text.now }
    ensures end { OnOk result (text.now ≡ take at text.now ++ end_line (take at text.now)) }
    ensures missing { IfErr result
        (λ fault. fault ≢ NoMemory → drop at text.now ≡ end_line (take at text.now) → ⊥) }
{
    let Ok(end) = end_of(alloc, &text[..at]) else {
        return Err(LoadFault::NoMemory);
    };
    let rest = &text[at..];
    if rest == end.as_slice() {
        return Ok(());
    }
    if rest.len() == end.len() && rest.starts_with(b"end sha256 ") {
        return Err(LoadFault::WrongDigest(line));
    }
    Err(LoadFault::BadLine(line))
}

/// What a text says, where it is the text of a state: see [`dump_text`](crate::dump::dump_text) for the form. The
/// state need not be sound.
///
/// The fault is the first that is met, reading forwards: a line that is none of those that the form has in that place,
/// or want of memory; and at the end a digest of another text. A last line that something follows, or that is missing,
/// is a bad line. Then nothing is kept. The cost grows with the text; of a task's line that is that of the line before
/// behind its own name, that name alone is read.
#[tactic(auto, unfolding(crate::specs::Texts::text_of, crate::specs::Texts::dump_text))]
pub fn read_text(alloc: Global, text: &[u8]) -> Result<Saved, LoadFault>
    ensures text { IfOk result (λ saved. text.now ≡ text_of saved.stamp (saved_state saved)) }
    ensures words { IfOk result (λ saved. IsWord saved.stamp × IsStateOfWords (saved_state saved)) }
    ensures err { IfErr result (λ fault. fault ≢ NoMemory → IsNoText text.now) }
{
    let mut at = 0;
    let Some(head) = read_head(text, &mut at) else {
        return Err(LoadFault::BadLine(1));
    };
    let rows = read_tasks(alloc, text, &mut at, 1)?;
    let mut lines = line_behind(0, rows.len());
    let spaces = read_spaces(alloc, text, &mut at, lines)?;
    lines = lines.saturating_add(spaces.len() as u64);
    let controls = read_controls(alloc, text, &mut at, lines)?;
    check_end(alloc, text, at, line_behind(lines, controls.len()))?;
    Ok(Saved {
        pid_max: head.pid_max,
        stamp: head.stamp,
        rows,
        spaces,
        controls,
    })
}
