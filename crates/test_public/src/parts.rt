//! Lines that come in parts.

use pid_script::line::Line;
use pid_script::part::PartLine;
use pid_types::call::Call;

const FORK: Call = Call::Fork {
    caller: 1,
    new_space: false,
};

/// Whether these pieces and the last one are the line.
fn are_line(part: &mut PartLine, pieces: &[&[u8]], last: &[u8], line: Line) -> bool {
    for piece in pieces {
        part.push(piece);
    }
    part.is_empty() == pieces.is_empty() && part.finish(last) == line
}

/// The pieces of a line, its end, and what it says. A line that is too long is forgotten.
static LINES: [(&[&[u8]], &[u8], Line); 5] = [
    (&[], b"", Line::Empty),
    (&[b"fo"], b"rk 1", Line::Call(FORK)),
    (&[&[b'a'; 200], b"a", b"fork 1"], b"", Line::Bad),
    (&[], b"fork 1", Line::Call(FORK)),
    (&[], b"", Line::Empty),
];

#[test]
fn joins_parts_and_forgets_long_lines(rt: HostRuntime) {
    let mut part = PartLine::new();
    for (pieces, last, line) in &LINES {
        assert!(rt; are_line(&mut part, pieces, last, *line));
    }
}
