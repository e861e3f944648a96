//! What a generated call is to be, and how often each comes.

/// A kind of call, before anything is known of who makes it.
#[derive(Clone, Copy)]
pub enum Draft {
    Fork,
    ForkNew,
    Exec,
    Exit,
    /// The exit of a namespace's init.
    Fall,
    Wait,
    SetPgid,
    SetSid,
    MakeControl,
    RemoveControl,
    SetLimit,
    Move,
    Join,
    SetSubreaper,
    Query,
    Count,
}

/// All drafts.
pub const DRAFTS: [Draft; 16] = [
    Draft::Fork,
    Draft::ForkNew,
    Draft::Exec,
    Draft::Exit,
    Draft::Fall,
    Draft::Wait,
    Draft::SetPgid,
    Draft::SetSid,
    Draft::MakeControl,
    Draft::RemoveControl,
    Draft::SetLimit,
    Draft::Move,
    Draft::Join,
    Draft::SetSubreaper,
    Draft::Query,
    Draft::Count,
];

/// What a run is about: which drafts come more often than the others.
#[derive(Clone, Copy)]
pub enum Theme {
    /// Some of all.
    Mixed,
    /// Namespaces that fall, joins and subreapers.
    Falls,
    /// Forks and ends, so that numbers are drawn and drawn again.
    Numbers,
    /// Control groups, limits and moves.
    Controls,
    /// Process groups and sessions.
    Groups,
}

impl Theme {
    /// How often a draft comes, beside the others.
    pub fn weight(self, draft: Draft) -> usize {
        match (self, draft) {
            (Theme::Falls, Draft::ForkNew | Draft::Join | Draft::SetSubreaper) => 8,
            (Theme::Falls, Draft::Fall) => 3,
            (Theme::Controls, Draft::MakeControl | Draft::SetLimit | Draft::Move) => 10,
            (Theme::Controls, Draft::RemoveControl | Draft::Count) => 8,
            (Theme::Groups, Draft::SetPgid) => 24,
            (Theme::Groups, Draft::SetSid | Draft::Exec) => 4,
            (Theme::Numbers, Draft::Exit | Draft::Wait) => 16,
            (_, Draft::Fork) => 20,
            (_, Draft::Exit) => 8,
            (_, Draft::Wait) => 14,
            (_, Draft::SetPgid | Draft::Query) => 6,
            (_, Draft::Fall) => 1,
            _ => 2,
        }
    }
}
