//! The lines of an entry, made one after the other.
ghost use Rattle.std.specs.Prelude.{◌≡◌, ◌++◌, List, [], ◌∷◌, ℕ, IfOk, OnErr, OnOk};
ghost use Rattle.{
  sha2.specs.{Hashers.{Holds256}, Sha256.{sha256}},
  pid_script.specs.{Reading.{parsed}, Script.{with_newline}},
  replica.specs.{Reading.{lines_in}, Replicas.{after_line, after_lines, answer_to, answers_to, dialogue, MakesFront}},
};

use crate::answer::answer_line;
use pid_script::bytes::split_line;
use sha2::{Digest, Sha256};
use stamped_table::StampedTable;
use std::alloc::AllocError;

/// Adds a line and a newline to what is hashed.
fn hash_line(hasher: &mut Sha256, line: &[u8])
    ensures { (m : List ℕ) → Holds256 hasher.old m → Holds256 hasher.new (m ++ with_newline line.now) }
{
    hasher.update(line);
    hasher.update(b"\n".as_slice());
}

/// Appends a line and a newline.
fn push_line(text: &mut Vec<u8>, line: &[u8]) -> Result<(), AllocError>
    ensures { OnOk result (text.new.items ≡ text.old.items ++ with_newline line.now) }
{
    text.extend_from_slice(line)?;
    text.push(b'\n')?;
    Ok(())
}

/// Makes a line: appends its answer, and hashes both. The error is want of memory.
fn make_line(
    table: &mut StampedTable,
    hasher: &mut Sha256,
    answers: &mut Vec<u8>,
    line: &[u8],
) -> Result<(), AllocError>
    ensures after { OnOk result (table.new ≡ after_line table.old (parsed line.now)) }
    ensures answer { OnOk result (answers.new.items
        ≡ answers.old.items ++ with_newline (answer_to table.old (parsed line.now))) }
    ensures err { OnErr result (MakesFront (line.now ∷ []) table.old table.new) }
    ensures hashed { OnOk result ((m : List ℕ) → Holds256 hasher.old m
        → Holds256 hasher.new ((m ++ with_newline line.now)
        ++ with_newline (answer_to table.old (parsed line.now)))) }
{
    let answer = answer_line(table, line)?;
    hash_line(hasher, line);
    hash_line(hasher, answer.as_slice());
    push_line(answers, answer.as_slice())
}

/// Makes lines, one after the other. After an `Err`, which is want of memory, some of them were made.
pub(crate) fn make_lines(
    table: &mut StampedTable,
    hasher: &mut Sha256,
    answers: &mut Vec<u8>,
    lines: &[u8],
) -> Result<(), AllocError>
    ensures after { OnOk result (table.new ≡ after_lines table.old (lines_in lines.now)) }
    ensures answer { OnOk result (answers.new.items ≡ answers.old.items ++ answers_to table.old (lines_in lines.now)) }
    ensures err { OnErr result (MakesFront (lines_in lines.now) table.old table.new) }
    ensures hashed { OnOk result ((m : List ℕ) → Holds256 hasher.old m
        → Holds256 hasher.new (m ++ dialogue table.old (lines_in lines.now))) }
{
    let mut rest = lines;
    while let Some((line, after)) = split_line(rest) {
        make_line(table, hasher, answers, line)?;
        rest = after;
    }
    make_line(table, hasher, answers, rest)
}

/// Makes lines, and answers the digest behind them. After an `Err`, which is want of memory, some of them were made.
pub(crate) fn digest_behind(
    table: &mut StampedTable,
    answers: &mut Vec<u8>,
    before: &[u8],
    lines: &[u8],
) -> Result<[u8; 32], AllocError>
    ensures after { OnOk result (table.new ≡ after_lines table.old (lines_in lines.now)) }
    ensures answer { OnOk result (answers.new.items ≡ answers.old.items ++ answers_to table.old (lines_in lines.now)) }
    ensures err { OnErr result (MakesFront (lines_in lines.now) table.old table.new) }
    ensures digest { IfOk result (λ digest. digest ≡ sha256 (before.now ++ dialogue table.old (lines_in lines.now))) }
{
    let mut hasher = Sha256::new();
    hasher.update(before);
    make_lines(table, &mut hasher, answers, lines)?;
    Ok(hasher.finalize())
}
