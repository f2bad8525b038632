// The scheduler on a board: every call of the crate table under a name that C and Rust link, and the trial of the layout.
//
// What is here: the calls and the soundness test of the crate table, their answers in numbers; and, in layout.rt, three functions by which a
// program sees that it declares the structs as this library does. include/trinvoksha.h declares them all for C, rust/trinvoksha for
// Rust.
// What is proved: each call gives what the rules say, in numbers (specs/Crossing.antt cites `called` of the crate rules), so every promise of
// the crate rules holds of the library; what the trial writes and reads is pinned in every field.
// This is the C interface: names, flat figures, a start beside the record, and numbers are those of the header, so each call is a line of its
// own that passes them on.
// What a caller should know: nothing has to be checked first. Every pattern of numbers is a table, and one that is not sound is answered
// with 1. What a caller in another language owes is written in the header.

#![tactic(auto)]

ghost use Rattle.board.specs.Crossing.{SetUpGives, OpenGives, CloseGives, ArriveGives, DepartGives, ElectionGives, SlotGives, AdvanceGives};
ghost use Rattle.board.specs.Sound.{SoundNumber};

pub use crossing::{Answer, Choice, Turn};
use table::{Request, Reserve, Table};
use time::Span;

mod crossing;
mod layout;

// A fresh table under this policy: 1 earliest deadline, 2 fixed priority.
#[unsafe(no_mangle)]
pub extern "C" fn trinvoksha_set_up(policy: u64) -> Answer
    ensures { SetUpGives policy result }
{
    Table::set_up(policy).into()
}

// Opens the place as a reserve of this level, cap and gap.
#[unsafe(no_mangle)]
pub extern "C" fn trinvoksha_open(
    table: Table,
    place: u64,
    level: u64,
    cap: Span,
    gap: Span,
) -> Answer
    ensures { OpenGives table place level cap gap result }
{
    table.open(place, Reserve { level, cap, gap }).into()
}

// Closes the place: it returns to zeros, its total kept.
#[unsafe(no_mangle)]
pub extern "C" fn trinvoksha_close(table: Table, place: u64) -> Answer
    ensures { CloseGives table place result }
{
    table.close(place).into()
}

// A job arrives at the place, asks for this many slots and wants them within this many ticks.
#[unsafe(no_mangle)]
pub extern "C" fn trinvoksha_arrive(table: Table, place: u64, budget: Span, away: Span) -> Answer
    ensures { ArriveGives table place budget away result }
{
    table.arrive(place, Request { budget, away }).into()
}

// The job of the place is withdrawn: gone with ending 1.
#[unsafe(no_mangle)]
pub extern "C" fn trinvoksha_depart(table: Table, place: u64) -> Answer
    ensures { DepartGives table place result }
{
    table.depart(place).into()
}

// Whose slot comes next. Asking changes nothing.
#[tactic(auto, using(crate::proofs::Named::choice_named))]
#[unsafe(no_mangle)]
pub extern "C" fn trinvoksha_election(table: Table) -> Choice
    ensures { ElectionGives table result }
{
    table.election().into()
}

// One slot: whose it was, and the table after it.
#[tactic(auto, using(crate::proofs::Named::turn_named))]
#[unsafe(no_mangle)]
pub extern "C" fn trinvoksha_slot(table: Table) -> Turn
    ensures { SlotGives table result }
{
    table.slot().into()
}

// n slots, each written into the record from the start on; no other byte changes.
#[unsafe(no_mangle)]
pub extern "C" fn trinvoksha_advance(
    table: Table,
    n: Span,
    slots: &mut [u8],
    start: usize,
) -> Answer
    ensures { AdvanceGives table n slots.old start result slots.new }
{
    table.advance(n, slots, start).into()
}

// Whether the table is sound: 1 or 0. A whole word, as every number of the table is, so that no caller reads bits that were left over.
#[unsafe(no_mangle)]
pub extern "C" fn trinvoksha_is_sound(table: Table) -> u64
    ensures { SoundNumber table result }
{
    table.is_sound() as u64
}
