// The rules of the box: a place, and, in specs/, what a table is, what each call does to it and answers, and what is promised.
//
// What is here: the place, the kinds of policy, refusal and ending, and the limits. specs/ holds the meaning, a file for each part of
// the rules, and the promises; a reader who trusts no proof reads specs/ alone.
// What is proved: the promises of specs/Promises.antt, in proofs/, for every table and every call; the starred cases of the notebook.
// What a caller should know: a crate that plays by these rules cites `called` in its contracts, and inherits every promise.

#![tactic(auto)]

ghost use Rattle.std.specs.Prelude.{◌≡◌};
ghost use Rattle.rules.specs.Kinds.{Names};

use time::{Instant, Span};

// The number of places of a table.
pub const PLACES: usize = 16;
// The last tick of the clock.
pub const LAST_TICK: Instant = Instant(4_000_000_000);
// The longest gap, and the farthest that a deadline may lie ahead.
pub const LONGEST_SPAN: Span = Span(1_000_000);
// The least urgent level; 0 is the most urgent.
pub const LAST_LEVEL: u64 = 7;
// The most slots of one advance.
pub const MOST_SLOTS: Span = Span(4_096);
// What stands for nobody in the byte of a record, and where a program in C is named a place; neither has an `Option`.
pub const NOBODY: u8 = 255;

// How the slots are given. A table holds the number, since any number may stand there.
#[derive(Clone, Copy, Debug, PartialEq, Eq)]
pub enum Policy {
    EarliestDeadline = 1,
    FixedPriority = 2,
}

impl TryFrom<u64> for Policy {
    type Error = Refusal;

    ghost try_from_gives = { Names };

    fn try_from(number: u64) -> Result<Self, Refusal> {
        match number {
            1 => Ok(Policy::EarliestDeadline),
            2 => Ok(Policy::FixedPriority),
            _ => Err(Refusal::NoPolicy),
        }
    }
}

// Why a call is refused. A program in C is told the number, and 0 where the call is done.
#[derive(Clone, Copy, Debug, PartialEq, Eq)]
pub enum Refusal {
    NotSound = 1,
    NoPlace = 2,
    AlreadyOpen = 3,
    NotOpen = 4,
    BadFigures = 5,
    JobLive = 6,
    TooEarly = 7,
    BeyondClock = 8,
    NoFit = 9,
    NoJob = 10,
    NoRoom = 11,
    NoPolicy = 12,
}

// How a job ended. A place holds the number, and 0 where none has.
#[derive(Clone, Copy, Debug, PartialEq, Eq)]
pub enum Ending {
    Left = 1,
    Spent = 2,
    Late = 3,
}

// A place: its reserve, its job, and what it was given. Every pattern of numbers is a place: C writes the fields, and the soundness test
// answers for any of them, so `opened`, `live` and `ending` are numbers, and a job is no `Option`.
#[repr(C)]
#[derive(Clone, Copy, Debug, Default, PartialEq, Eq)]
pub struct Place {
    // 1 open, 0 closed
    pub opened: u64,
    pub level: u64,
    pub cap: Span,
    pub gap: Span,
    // before this instant no new job may start
    pub next: Instant,
    // 1 where a job is live, 0 where none is
    pub live: u64,
    pub budget: Span,
    pub remaining: Span,
    pub deadline: Instant,
    pub ending: u64,
    // the slots ever given to this place since set-up
    pub total: Span,
}

impl Place {
    ghost use Rattle.rules.specs.Table.{is_open, is_live};

    // Whether a reserve is open here.
    pub fn is_open(&self) -> bool
        ensures { result ≡ is_open self.now }
    {
        self.opened == 1
    }

    // Whether a job is live here.
    pub fn is_live(&self) -> bool
        ensures { result ≡ is_live self.now }
    {
        self.live == 1
    }
}
