//! A first use of the table: one thread holds a record and its seat, makes four calls, and writes the
//! answers.

ghost use Rattle.std.specs.Prelude.{◌≡◌};

use locked_table::{Record, Seat};
use pid_script::answer::answer_text;
use pid_types::call::Call;
use pid_types::config::Config;
use pid_types::entry::Receipt;
use pid_types::reply::CallFault;
use std::alloc::{AllocError, Global};
use std::marker::Brand;
use std::sync::ledger::{Blank, Ledger};
use std::test::Fail;

static CALLS: [Call; 4] = [
    Call::Fork {
        caller: 1,
        new_space: true,
    },
    Call::Fork {
        caller: 2,
        new_space: false,
    },
    Call::NsPid {
        caller: 1,
        target: 3,
    },
    Call::GetPid { caller: 9 },
];

/// The calls, on a table of their own, with one worker, and the answers.
fn play<L: Ledger>(alloc: Global, blank: Blank) -> Result<Vec<u8>, Fail>
    requires name { blank.name ≡ L.name }
    requires parts { (blank.parts ≡ L.parts) × (L.parts ≡ 1) }
{
    let config = Config::default_values();
    let (mut record, mut seats) = Record::<L, 1>::new(alloc, blank, &config)?;
    let Some(mut seat) = seats.pop() else {
        unreachable!()
    };
    Ok(answers(alloc, &mut record, &mut seat)?)
}

/// Makes the calls, and writes a line for each answer.
fn answers<L: Ledger>(
    alloc: Global,
    record: &mut Record<L, 1>,
    seat: &mut Seat<L, 1>,
) -> Result<Vec<u8>, AllocError> {
    let mut text = Vec::new(alloc);
    for call in &CALLS {
        push_answer(&mut text, &record.act(seat, *call))?;
    }
    Ok(text)
}

/// Appends the line of an answer.
fn push_answer(text: &mut Vec<u8>, answer: &Result<Receipt, CallFault>) -> Result<(), AllocError> {
    text.extend_from_slice(answer_text(answer).as_slice())?;
    text.push(b'\n')?;
    Ok(())
}

const ANSWERS: &str = "child 2 root 2\nchild 2 root 3\n3 2\nESRCH no-caller\n";

/// Makes the calls, on a table whose type is picked here.
#[test]
fn makes_four_calls(rt: HostRuntime) -> Result<(), Fail> {
    let text = play::<Brand>(rt.alloc(), Blank::new(1))?;
    assert!(rt; text.as_slice() == ANSWERS.as_bytes());
    Ok(())
}
