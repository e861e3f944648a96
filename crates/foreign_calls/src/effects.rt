//! Calls that tell beside the reply what they did to others.
ghost use Rattle.std.specs.Prelude.{◌≡◌, map, length};
ghost use Rattle.{
  translate.specs.Pages.{with_front},
  foreign_numbers.specs.Effects.{effect_numbers},
  foreign_handles.specs.Held.{stamped},
  stamped_table.specs.Stamped.{reply_to},
  foreign_calls.specs.{Effects.{MakesTold, TellsEffects, WantsRoom}, Made.{TellsReply}},
};

use crate::calls::call;
use call_effects::effect::Effect;
use foreign_handles::held::Held;
use foreign_numbers::effects::{EffectNumbers, tell_effect};
use foreign_numbers::numbers::ReplyNumbers;
use foreign_numbers::status::{DONE, NO_ROOM, OUT_OF_RANGE, status_of};
use pid_types::call::Call;

/// Writes the effects over the front of the room, as many as it takes.
fn put_front(effects: &[Effect], room: &mut [EffectNumbers])
    ensures { room.new ≡ with_front (map effect_numbers effects.now) room.old }
{
    let count = effects.len().min(room.len());
    for place in 0..count {
        room[place] = tell_effect(&effects[place]);
    }
}

/// Makes the worker's call, and tells its reply and its effects as numbers, and its place in the history, if there is
/// one. The result is the status.
pub fn call_told(
    held: &mut Held,
    worker: u32,
    made: Call,
    reply: &mut ReplyNumbers,
    ordinal: &mut u64,
    room: &mut [EffectNumbers],
    count: &mut u64,
) -> u32
    ensures makes { MakesTold held.old worker made ordinal.old ordinal.new result held.new }
    ensures reply { TellsReply (reply_to (stamped held.old) made) reply.old reply.new result }
    ensures effects { TellsEffects (stamped held.old).state (stamped held.new).state
        room.old room.new count.old count.new result }
    ensures no_room { result ≡ NO_ROOM
        → WantsRoom (stamped held.old).state (stamped held.old).stamp made (length room.old) count.new }
{
    if worker as usize >= held.workers() {
        return OUT_OF_RANGE;
    }
    let touched = match held.touched(made) {
        Ok(touched) => touched,
        Err(fault) => return status_of(fault),
    };
    let most = touched.most();
    if room.len() < most {
        *count = most as u64;
        return NO_ROOM;
    }
    let status = call(held, worker, made, reply, ordinal);
    if status != DONE {
        return status;
    }
    let effects = touched.effects(held.table());
    put_front(&effects, room);
    *count = effects.len() as u64;
    DONE
}
