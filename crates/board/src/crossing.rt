// What crosses to C: the answers of the calls as numbers, and the table. C has no Result and no Option, and the header declares these three
// structs, so they stay three structs of numbers; inside, an outcome and `Answer<T>` stand for them.

ghost use Rattle.board.specs.Crossing.{IsAnswer, IsChoice, IsTurn};

use rules::Refusal;
use table::{Table, named_number, number_of};

// What most calls answer: 0 or the number of the refusal, and the table.
#[repr(C)]
#[derive(Clone, Copy, Debug, PartialEq, Eq)]
pub struct Answer {
    pub number: u64,
    pub table: Table,
}

// What the election answers: 0 or the number of the refusal, and the place whose slot comes next, or 255.
#[repr(C)]
#[derive(Clone, Copy, Debug, PartialEq, Eq)]
pub struct Choice {
    pub number: u64,
    pub place: u64,
}

// What a slot answers: 0 or the number of the refusal, the place that was given the slot, or 255, and the table.
#[repr(C)]
#[derive(Clone, Copy, Debug, PartialEq, Eq)]
pub struct Turn {
    pub number: u64,
    pub place: u64,
    pub table: Table,
}

impl From<table::Answer<()>> for Answer {
    ghost from_gives = { IsAnswer };

    fn from(answer: table::Answer<()>) -> Answer {
        Answer {
            number: number_of(&answer.outcome),
            table: answer.table,
        }
    }
}

impl From<Result<Option<usize>, Refusal>> for Choice {
    ghost from_gives = { IsChoice };

    fn from(outcome: Result<Option<usize>, Refusal>) -> Choice {
        Choice {
            number: number_of(&outcome),
            place: named_number(&outcome),
        }
    }
}

impl From<table::Answer<Option<usize>>> for Turn {
    ghost from_gives = { IsTurn };

    fn from(answer: table::Answer<Option<usize>>) -> Turn {
        Turn {
            number: number_of(&answer.outcome),
            place: named_number(&answer.outcome),
            table: answer.table,
        }
    }
}
