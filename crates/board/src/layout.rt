// The trial of the layout: a mark of its own for every field that crosses to another language.
//
// A turn holds a whole table. Field by field, the number is MARKS + 1, the place MARKS + 2, the policy, the clock and the idle count
// MARKS + 3 to MARKS + 5, and the fields of place i in their order MARKS + 16 (i + 1) + 1 to MARKS + 16 (i + 1) + 11. What is written and read
// is the struct of numbers that C declares, and no answer of the crate table; whether all is as written C is told as a number.

ghost use Rattle.std.specs.Prelude.{◌≡◌, ◌<◌, Decides};
ghost use Rattle.rules.specs.Numbers.{place_count};
ghost use Rattle.board.specs.Layout.{marked_place, marked_places, marked_table, marked_turn, Version, Marked, MarkedNumber};

use crate::crossing::Turn;
use rules::{PLACES, Place};
use std::array;
use table::Table;
use time::{Instant, Span};

// The version of the layout. It grows with every change of a struct that crosses.
pub const LAYOUT: u64 = 1;
// What every mark is above: more than half a word holds, so that a field declared too narrow is seen.
const MARKS: u64 = 1_000_000_000_000_000_000;
// How far the marks of a place are from those of the next.
const APART: u64 = 16;

// The place of this number with a mark in every field.
fn marked_place(place: u64) -> Place
    requires { place < place_count }
    ensures { result ≡ marked_place place }
{
    let before = MARKS + APART * (place + 1);
    Place {
        opened: before + 1,
        level: before + 2,
        cap: Span(before + 3),
        gap: Span(before + 4),
        next: Instant(before + 5),
        live: before + 6,
        budget: Span(before + 7),
        remaining: Span(before + 8),
        deadline: Instant(before + 9),
        ending: before + 10,
        total: Span(before + 11),
    }
}

// A table with a mark in every field.
fn marked_table() -> Table
    ensures { result ≡ marked_table }
{
    Table {
        policy: MARKS + 3,
        now: Instant(MARKS + 4),
        idle: Span(MARKS + 5),
        places: array::from_fn(|i| marked_place(i as u64)),
    }
}

// The turn that the trial writes, and compares with what it reads.
fn marked_turn() -> Turn
    ensures { result ≡ marked_turn }
{
    Turn {
        number: MARKS + 1,
        place: MARKS + 2,
        table: marked_table(),
    }
}

// Whether every field of every place holds its mark.
fn are_marked(places: &[Place; PLACES]) -> bool
    ensures { Decides result (places.now ≡ marked_places place_count) }
{
    for (i, p) in places.iter().enumerate() {
        if *p != marked_place(i as u64) {
            return false;
        }
    }
    true
}

// The version of the layout that this library has.
#[unsafe(no_mangle)]
pub extern "C" fn trinvoksha_layout_version() -> u64
    ensures { Version result }
{
    LAYOUT
}

// A turn with a mark in every field.
#[unsafe(no_mangle)]
pub extern "C" fn trinvoksha_layout_write() -> Turn
    ensures { Marked result }
{
    marked_turn()
}

// Whether every field of the turn holds its mark: 1 or 0.
#[unsafe(no_mangle)]
pub extern "C" fn trinvoksha_layout_read(turn: Turn) -> u64
    ensures { MarkedNumber turn result }
{
    let marked = marked_turn();
    let same = turn.number == marked.number
        && turn.place == marked.place
        && turn.table.policy == marked.table.policy
        && turn.table.now == marked.table.now
        && turn.table.idle == marked.table.idle
        && are_marked(&turn.table.places);
    same as u64
}
