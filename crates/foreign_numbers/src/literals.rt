//! The numbers that callers have compiled in, each as a literal. A constant that changes, or two that change places,
//! leave the law without a proof.
ghost use Rattle.std.specs.Prelude.{◌≡◌};

use crate::choices::{
    ADOPTED, ANY, CHILD, CHILDREN, CONTROLS, ENDED, ENTRY_GAP, ENTRY_GONE, ENTRY_MADE, ENTRY_NOTED,
    ENTRY_REPEATED, GONE, GROUP, GROUP_GONE, GROUP_MEMBERS, GROUPS, NAMESPACE_MEMBERS,
    NAMESPACE_OWN, OWN_GROUP, SESSION_GONE, SESSION_MEMBERS, SESSIONS, SPACE_FELL, SPACE_GONE,
    SPACES, TASKS,
};
use crate::kinds::{
    CONTROL, COUNTED, END, FORKED, KILLED, LEVELS, NONE_YET, NUMBER, OK, REAPED, REFUSED,
};
use crate::operations::{
    COUNT, EXEC, EXIT, FORK, GETPGID, GETPID, GETPPID, GETSID, JOIN, LIMIT, MK, MOVE, NEXT, NSPID,
    RM, SETPGID, SETSID, SUBREAPER, WAIT,
};
use crate::status::{
    AGAIN, BAD_LINE, BAD_TEXT, BUSY, CLOSED, DIFFERS, DIVERGED, DONE, EMPTY_LINE, MISSING,
    NO_ENTRY, NO_MEMORY, NO_ROOM, NO_SESSION, NOT_KEPT, NOT_RECOVERABLE, NOT_RISING, NOT_SAVED,
    OTHER_SETTINGS, OTHER_VERSION, OUT_OF_RANGE, SPENT, TORN, WRONG_BYTE,
};

/// The numbers of `pidtab.h` and the headers beside it; the call does nothing. A status other than 0 is the error of
/// Linux that its comment names (`errno(3)`). The others are counted from 0, in the order of the headers. The end 256
/// is above each status of `exit(2)`, of which 255 is the last.
pub fn numbers_are_literal()
    ensures done { (DONE ≡ 0) }
    ensures statuses { (NOT_KEPT ≡ 2) × (NO_SESSION ≡ 3) × (NOT_SAVED ≡ 8) × (CLOSED ≡ 9) × (AGAIN ≡ 11)
        × (NO_MEMORY ≡ 12) × (BUSY ≡ 16) × (OUT_OF_RANGE ≡ 22) × (NO_ROOM ≡ 34) × (TORN ≡ 42) × (NO_ENTRY ≡ 53)
        × (EMPTY_LINE ≡ 61) × (MISSING ≡ 67) × (BAD_LINE ≡ 71) × (DIFFERS ≡ 74) × (SPENT ≡ 75) × (DIVERGED ≡ 78)
        × (WRONG_BYTE ≡ 84) × (OTHER_SETTINGS ≡ 92) × (OTHER_VERSION ≡ 93) × (NOT_RISING ≡ 116) × (BAD_TEXT ≡ 117)
        × (NOT_RECOVERABLE ≡ 131) }
    ensures operations { (FORK ≡ 0) × (GETPID ≡ 1) × (NSPID ≡ 2) × (EXEC ≡ 3) × (EXIT ≡ 4) × (WAIT ≡ 5)
        × (GETPPID ≡ 6) × (SETPGID ≡ 7) × (SETSID ≡ 8) × (MK ≡ 9) × (RM ≡ 10) × (LIMIT ≡ 11) × (MOVE ≡ 12)
        × (COUNT ≡ 13) × (GETPGID ≡ 14) × (GETSID ≡ 15) × (NEXT ≡ 16) × (JOIN ≡ 17) × (SUBREAPER ≡ 18) }
    ensures selectors { (ANY ≡ 0) × (CHILD ≡ 1) × (OWN_GROUP ≡ 2) × (GROUP ≡ 3) }
    ensures uses { (TASKS ≡ 0) × (GROUPS ≡ 1) × (SESSIONS ≡ 2) }
    ensures members { (CHILDREN ≡ 0) × (GROUP_MEMBERS ≡ 1) × (SESSION_MEMBERS ≡ 2) × (NAMESPACE_MEMBERS ≡ 3)
        × (NAMESPACE_OWN ≡ 4) }
    ensures trees { (SPACES ≡ 0) × (CONTROLS ≡ 1) }
    ensures effects { (ENDED ≡ 0) × (ADOPTED ≡ 1) × (GONE ≡ 2) × (GROUP_GONE ≡ 3) × (SESSION_GONE ≡ 4)
        × (SPACE_FELL ≡ 5) × (SPACE_GONE ≡ 6) }
    ensures entries { (ENTRY_NOTED ≡ 0) × (ENTRY_MADE ≡ 1) × (ENTRY_REPEATED ≡ 2) × (ENTRY_GONE ≡ 3)
        × (ENTRY_GAP ≡ 4) }
    ensures replies { (FORKED ≡ 0) × (OK ≡ 1) × (NUMBER ≡ 2) × (LEVELS ≡ 3) × (REAPED ≡ 4) × (NONE_YET ≡ 5)
        × (COUNTED ≡ 6) × (CONTROL ≡ 7) × (END ≡ 8) × (REFUSED ≡ 9) }
    ensures killed { (KILLED ≡ 256) }
{}
