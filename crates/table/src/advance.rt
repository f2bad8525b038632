// Advance: n slots in one call, written into a lent record from a given start.

ghost use Rattle.std.specs.Prelude.{◌≡◌, true, ◌++◌, ◌+◌, ◌<◌, ◌≤◌, length, drop};
ghost use Rattle.rules.specs.Numbers.{last_tick};
ghost use Rattle.rules.specs.Sound.{sound};
ghost use Rattle.rules.specs.Slot.{slots as slots_of, named};
ghost use Rattle.rules.specs.Call.{Advance, called};
ghost use Rattle.table.specs.Dress.{ruled, dressed, who, Answers};

use crate::numbers::place_number;
use crate::{Answer, Table};
use rules::{MOST_SLOTS, Refusal};
use time::Span;

impl Table {
    // A slot for each byte of the piece, named there.
    fn run(&mut self, piece: &mut [u8])
        requires { (sound (ruled self.old) ≡ true) × (self.old.now.0 + length piece.old ≤ last_tick) }
        ensures table { self.new ≡ dressed (slots_of (length piece.old) (ruled self.old)) }
        ensures named { piece.new ≡ named (length piece.old) (ruled self.old) }
    {
        for byte in piece.iter_mut() {
            *byte = place_number(self.give_slot()) as u8;
        }
    }

    // A slot for each of the first bytes, as many as are counted, named there.
    fn run_first(&mut self, count: usize, bytes: &mut [u8])
        requires { (sound (ruled self.old) ≡ true) × (self.old.now.0 + count ≤ last_tick) × (count ≤ length bytes.old) }
        ensures table { self.new ≡ dressed (slots_of count (ruled self.old)) }
        ensures named { bytes.new ≡ named count (ruled self.old) ++ drop count bytes.old }
    {
        self.run(&mut bytes[..count]);
    }

    // n slots, each written into the record from the start on. The start is a parameter beside the record, and no slice stands for both, since a
    // start beyond the record's end is refused by its number.
    #[tactic(auto, unfolding(rules::specs::Call::called, rules::specs::Call::refusal, rules::specs::Call::checks, rules::specs::Call::judge, rules::specs::Call::effect, rules::specs::Call::lent))]
    fn try_advance(&mut self, n: Span, slots: &mut [u8], start: usize) -> Result<(), Refusal>
        ensures answer { Answers (called (ruled self.old) (Advance n.0 slots.old start)) result self.new }
        ensures bytes { slots.new ≡ (called (ruled self.old) (Advance n.0 slots.old start)).bytes }
    {
        self.checked()?;
        if MOST_SLOTS < n {
            return Err(Refusal::BadFigures);
        }
        self.reaches(n)?;
        let count = n.0 as usize;
        if slots.len() < start || slots.len() - start < count {
            return Err(Refusal::NoRoom);
        }
        self.run_first(count, &mut slots[start..]);
        Ok(())
    }

    // n slots, each written into the record from the start on; no other byte changes. The clause of `after` says of a closure what it makes of
    // the table, and not what it writes into the record, so it is not used here. The start is beside the record for the reason above.
    pub fn advance(mut self, n: Span, slots: &mut [u8], start: usize) -> Answer<()>
        ensures answer { Answers (called (ruled self) (Advance n.0 slots.old start)) result.outcome result.table }
        ensures bytes { slots.new ≡ (called (ruled self) (Advance n.0 slots.old start)).bytes }
    {
        let outcome = self.try_advance(n, slots, start);
        Answer {
            outcome,
            table: self,
        }
    }
}
