//! Laws of the head of a snapshot.
ghost use Rattle.std.specs.Prelude.{◌≡◌, ◌++◌, List, ℕ, true, length, IfErr, IfOk};
ghost use Rattle.replica.specs.{Log.{Log}, Snapshots.{BeginsWithHead, IsSnapshot, has_settings, head_text, restored}};

use crate::replica::Replica;
use crate::snapshot::HeadFault;
use std::alloc::Global;

/// One text begins with the head of one log, and it is clear what stands behind that.
pub fn heads_tell_logs()
    ensures { (a b : Log) (behind_a behind_b : List ℕ) → IsSnapshot a → IsSnapshot b
        → head_text a ++ behind_a ≡ head_text b ++ behind_b → (restored a ≡ restored b) × (behind_a ≡ behind_b) }
{}

/// A text that begins with the head of a log with these settings is read as that log. The only error is `NoMemory`.
pub fn head_is_read_as_its_log(
    alloc: Global,
    text: &[u8],
    pid_max: u64,
    model: u64,
) -> Result<(Replica, usize), HeadFault>
    ensures ok { (log : Log) (rest : List ℕ) → BeginsWithHead text.now log rest → has_settings pid_max model log ≡ true
        → IfOk result (λ r. (r.0 ≡ restored log) × (r.1 ≡ length (head_text log))) }
    ensures err { (log : Log) (rest : List ℕ) → BeginsWithHead text.now log rest → has_settings pid_max model log ≡ true
        → IfErr result (λ fault. fault ≡ HeadFault.NoMemory) }
{
    Replica::read_head(alloc, text, pid_max, model)
}

/// What is written of a replica whose log has begun, in form 1 or 2, is read as that replica by a host with its
/// settings, whatever stands behind. The only error is `NoMemory`.
pub fn what_is_written_is_read(
    alloc: Global,
    replica: &Replica,
    behind: &[u8],
) -> Result<(Replica, usize), HeadFault>
    requires begun { replica.now.begun ≡ true }
    requires form { has_settings replica.now.pid_max replica.now.model replica.now ≡ true }
    ensures ok { IfOk result (λ r. (r.0 ≡ restored replica.now) × (r.1 ≡ length (head_text replica.now))) }
    ensures err { IfErr result (λ fault. fault ≡ HeadFault.NoMemory) }
{
    let Ok(mut text) = replica.write_head(alloc) else {
        return Err(HeadFault::NoMemory);
    };
    let Ok(()) = text.extend_from_slice(behind) else {
        return Err(HeadFault::NoMemory);
    };
    head_is_read_as_its_log(alloc, text.as_slice(), replica.pid_max(), replica.model())
}
