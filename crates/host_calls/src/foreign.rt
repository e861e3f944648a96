//! The machine for who is not written in this language. C holds [`HostNumbers`] and [`CallNumbers`], and these
//! functions alone change them.
ghost use Rattle.std.specs.Prelude.{◌≡◌, ◌↔◌, ◌⊎◌, ◌≤◌, IsTrue, MatchBool};
ghost use Rattle.host_calls.specs.Calls.{is_queued, cancelled};
ghost use Rattle.host_calls.specs.CallNumbers.{AreNextPut, GoesTo, StaysAs, SubmitsAs, GivesUpAs, TakesAs, ReadsAs};
ghost use Rattle.host_calls.specs.CallNumbers.{LoadsAs, TellsAs, host_for, numbers_of_host, call_for, numbers_of_call};
ghost use Rattle.host_calls.specs.Puts.{begun_host, MaySubmit, MayOpen, opened_as, MaySeal, sealed_of, IsPutting};
ghost use Rattle.host_calls.specs.{CallNumbers.{outcome_for}, Puts.{acknowledged}, Reads.{is_telling}};
ghost use Rattle.host_calls.specs.Tells.{stopped_of};

use crate::host::HostCalls;
use crate::numbers::{
    CallNumbers, HostNumbers, PutNumbers, of_call, of_host, to_call, to_host, to_numbers,
    to_outcome,
};

/// [`HostCalls::begin`].
#[unsafe(no_mangle)]
pub extern "C" fn host_calls_begin(host: &mut HostNumbers)
    ensures { host.new ≡ numbers_of_host begun_host }
{
    *host = of_host(&HostCalls::begin());
}

/// [`HostCalls::submit`]. Where it is false, the call is as it was.
#[unsafe(no_mangle)]
pub extern "C" fn host_calls_submit(
    host: &mut HostNumbers,
    call: &mut CallNumbers,
    lines: u64,
    size: u64,
    deadline: u64,
) -> bool
    ensures when { IsTrue result ↔ MaySubmit lines (host_for host.old) }
    ensures becomes { MatchBool result (SubmitsAs lines size deadline host.old host.new call.new)
        (StaysAs host.old host.new) }
    ensures call { IsTrue result ⊎ (call.new ≡ numbers_of_call (call_for call.old)) }
{
    let mut now = to_host(host);
    let mut it = to_call(call);
    let submits = now.submit(&mut it, lines, size, deadline);
    *host = of_host(&now);
    *call = of_call(&it);
    submits
}

/// [`HostCalls::next_put`].
#[unsafe(no_mangle)]
pub extern "C" fn host_calls_next_put(host: &HostNumbers, step: &mut PutNumbers)
    ensures { AreNextPut host.now step.new }
{
    *step = to_numbers(to_host(host).next_put());
}

/// [`HostCalls::opened`].
#[unsafe(no_mangle)]
pub extern "C" fn host_calls_opened(host: &mut HostNumbers, session: u64) -> bool
    ensures when { IsTrue result ↔ MayOpen session (host_for host.old) }
    ensures becomes { MatchBool result (GoesTo host.old host.new (opened_as session)) (StaysAs host.old host.new) }
{
    let mut now = to_host(host);
    let opens = now.opened(session);
    *host = of_host(&now);
    opens
}

/// [`HostCalls::take`]: the number of what became of the call.
#[unsafe(no_mangle)]
pub extern "C" fn host_calls_take(host: &mut HostNumbers, call: &mut CallNumbers) -> u32
    ensures { TakesAs host.old call.old host.new call.new result }
{
    let mut now = to_host(host);
    let mut it = to_call(call);
    let taken = now.take(&mut it);
    *host = of_host(&now);
    *call = of_call(&it);
    taken as u32
}

/// [`HostCalls::seal`].
#[unsafe(no_mangle)]
pub extern "C" fn host_calls_seal(host: &mut HostNumbers) -> bool
    ensures when { IsTrue result ↔ MaySeal (host_for host.old) }
    ensures becomes { MatchBool result (GoesTo host.old host.new sealed_of) (StaysAs host.old host.new) }
{
    let mut now = to_host(host);
    let seals = now.seal();
    *host = of_host(&now);
    seals
}

/// [`HostCalls::acknowledge`].
#[unsafe(no_mangle)]
pub extern "C" fn host_calls_acknowledge(
    host: &mut HostNumbers,
    session: u64,
    sequence: u64,
) -> bool
    ensures when { IsTrue result ↔ IsPutting session sequence (host_for host.old) }
    ensures becomes { MatchBool result (GoesTo host.old host.new acknowledged) (StaysAs host.old host.new) }
{
    let mut now = to_host(host);
    let is_last = now.acknowledge(session, sequence);
    *host = of_host(&now);
    is_last
}

/// [`HostCalls::is_telling`].
#[unsafe(no_mangle)]
pub extern "C" fn host_calls_is_telling(host: &HostNumbers) -> bool
    ensures { result ≡ is_telling (host_for host.now) }
{
    to_host(host).is_telling()
}

/// [`HostCalls::read`]: the number of what follows.
#[unsafe(no_mangle)]
pub extern "C" fn host_calls_read(
    host: &mut HostNumbers,
    outcome: u32,
    session: u64,
    sequence: u64,
) -> u32
    ensures { ReadsAs (outcome_for outcome) session sequence host.old host.new result }
{
    let mut now = to_host(host);
    let follows = now.read(to_outcome(outcome), session, sequence);
    *host = of_host(&now);
    follows as u32
}

/// [`HostCalls::load`]: the number of what follows.
#[unsafe(no_mangle)]
pub extern "C" fn host_calls_load(
    host: &mut HostNumbers,
    position: u64,
    is_open: bool,
    last: u64,
) -> u32
    ensures { LoadsAs position is_open last host.old host.new result }
{
    let mut now = to_host(host);
    let follows = now.load(position, is_open, last);
    *host = of_host(&now);
    follows as u32
}

/// [`HostCalls::tell`]: the number of what the call is told.
#[unsafe(no_mangle)]
pub extern "C" fn host_calls_tell(host: &mut HostNumbers, call: &mut CallNumbers) -> u32
    ensures { TellsAs host.old call.old host.new call.new result }
{
    let mut now = to_host(host);
    let mut it = to_call(call);
    let told = now.tell(&mut it);
    *host = of_host(&now);
    *call = of_call(&it);
    told as u32
}

/// [`HostCalls::stop`].
#[unsafe(no_mangle)]
pub extern "C" fn host_calls_stop(host: &mut HostNumbers)
    ensures { GoesTo host.old host.new stopped_of }
{
    let mut now = to_host(host);
    now.stop();
    *host = of_host(&now);
}

/// [`HostCall::cancel`](crate::call::HostCall::cancel).
#[unsafe(no_mangle)]
pub extern "C" fn host_calls_cancel(call: &mut CallNumbers) -> bool
    ensures when { result ≡ is_queued (call_for call.old).state }
    ensures becomes { call.new ≡ numbers_of_call (cancelled (call_for call.old)) }
{
    let mut it = to_call(call);
    let is_cancelled = it.cancel();
    *call = of_call(&it);
    is_cancelled
}

/// [`HostCall::give_up`](crate::call::HostCall::give_up).
#[unsafe(no_mangle)]
pub extern "C" fn host_calls_give_up(call: &mut CallNumbers)
    ensures { GivesUpAs call.old call.new }
{
    let mut it = to_call(call);
    it.give_up();
    *call = of_call(&it);
}

/// [`HostCall::expire`](crate::call::HostCall::expire).
#[unsafe(no_mangle)]
pub extern "C" fn host_calls_expire(call: &mut CallNumbers, time: u64) -> bool
    ensures when { IsTrue result ↔ ((call_for call.old).deadline ≤ time) }
    ensures becomes { MatchBool result (GivesUpAs call.old call.new)
        (call.new ≡ numbers_of_call (call_for call.old)) }
{
    let mut it = to_call(call);
    let is_late = it.expire(time);
    *call = of_call(&it);
    is_late
}
