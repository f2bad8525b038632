// The scheduler: the table by value, and every call on it.
//
// What is here: the table, its soundness test, and the calls: set up, open, close, arrive, depart, the election, one slot, and advance
// over n slots into a lent record. Each takes the whole table and hands it back with its answer; the election and the test only read it.
// What is proved: each call gives exactly what the rules say (its clauses cite `called` of the crate rules, in the words of
// specs/Dress.antt), for every table, sound or not, and every argument; so every promise of the crate rules holds of these functions.
// What a caller should know: nothing has to be checked first. The outcome of an answer is what the call comes to, or why it is refused;
// a refused call hands back the table and the record as they came.

#![tactic(auto)]

ghost use Rattle.std.specs.Fn.{FnOnceReturnsAtMut};

pub use numbers::{named_number, number_of};
use rules::{PLACES, Place, Refusal};
use time::{Instant, Span};

mod advance;
mod calls;
mod election;
mod fit;
mod numbers;
mod slot;
mod sound;

// The table: sixteen places, the policy, the clock and the count of idle slots. Every pattern of numbers is a table: C writes the fields, and
// a table of zeros has no policy, so the policy is a number.
#[repr(C)]
#[derive(Clone, Copy, Debug, PartialEq, Eq)]
pub struct Table {
    pub policy: u64,
    pub now: Instant,
    pub idle: Span,
    pub places: [Place; PLACES],
}

// What a call answers: what it comes to, or why it is refused; and the table.
#[derive(Clone, Copy, Debug, PartialEq, Eq)]
pub struct Answer<T> {
    pub outcome: Result<T, Refusal>,
    pub table: Table,
}

// What a place is opened with: at most the cap of slots in each gap.
#[derive(Clone, Copy, Debug, PartialEq, Eq)]
pub struct Reserve {
    pub level: u64,
    pub cap: Span,
    pub gap: Span,
}

// What a job asks for: this many slots, within this many ticks.
#[derive(Clone, Copy, Debug, PartialEq, Eq)]
pub struct Request {
    pub budget: Span,
    pub away: Span,
}

impl Table {
    // The answer of a call that works on a table that it is lent: what it came to, and the table as it left it.
    fn after<T, F: FnOnce(&mut Table) -> Result<T, Refusal>>(mut self, call: F) -> Answer<T>
        requires { F.IsAlwaysCallable call }
        ensures { FnOnceReturnsAtMut F.FnOnce call self result.outcome result.table }
    {
        let outcome = call(&mut self);
        Answer {
            outcome,
            table: self,
        }
    }
}
