//! Pages: who belongs to a task, a process group or a session, or is in a namespace, as numbers.
ghost use Rattle.std.specs.Prelude.{◌≡◌, ◌≢◌, [], ◌∷◌};
ghost use Rattle.foreign_calls.specs.{Held.{IsDoneOr}, Paged.{page_by, PutsPage}};

use foreign_numbers::numbers::{ReplyNumbers, put_reply};
use foreign_numbers::status::{DONE, NO_MEMORY};
use foreign_numbers::whom::read_whom;
use pid_table::PidTable;
use pid_types::reply::Reply;
pub use translate::page::Page;

/// The page that the numbers say; none where the first of them says nobody whom a page lists.
pub fn read_page(caller: u32, whom: u32, number: u32, from: u32) -> Option<Page>
    ensures { result ≡ page_by caller whom number from }
{
    let whom = read_whom(whom)?;
    Some(Page {
        caller,
        whom,
        number,
        from,
    })
}

/// Writes the numbers of the page over the front of the room, and tells how many there are, or one more than the room
/// takes where there are more, or the refusal. The result is the status.
pub fn tell_page(table: &PidTable, page: &Page, room: &mut [u32], reply: &mut ReplyNumbers) -> u32
    ensures done { result ≡ DONE → PutsPage table.now page.now room.old room.new reply.new }
    ensures not_done_room { result ≢ DONE → room.new ≡ room.old }
    ensures not_done_reply { result ≢ DONE → reply.new ≡ reply.old }
    ensures statuses { IsDoneOr result (NO_MEMORY ∷ []) }
{
    let Ok(short) = table.page(page, room) else {
        return NO_MEMORY;
    };
    let mut told = Reply::Done;
    short.tell(&mut told);
    put_reply(&told, reply);
    DONE
}
