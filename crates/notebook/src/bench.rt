// The bench: a table under trial. Each step makes a real call, prints it and what was answered, and compares with what the notebook
// says; a mismatch is named where it happens. Steps take the figures flat, as the notebook writes them: structs for them are no plainer.
// Outcomes are compared by their numbers, in which a mismatch is told.

use rules::{Ending, Policy, Refusal};
use std::io;
use table::{Answer, Request, Reserve, Table, named_number, number_of};
use time::{Instant, Span};

#[derive(Drop)]
pub(crate) struct Bench<'a, P: Print> {
    // where it prints
    rt: &'a P,
    pub table: Table,
    // whether all was as the notebook says so far
    right: bool,
}

// The reserve of these figures.
fn reserve(level: u64, cap: u64, gap: u64) -> Reserve {
    Reserve {
        level,
        cap: Span(cap),
        gap: Span(gap),
    }
}

impl<'a, P: Print> Bench<'a, P> {
    // A fresh table under the policy, with the three reserves of the notebook: place 0 has C 3, T 10; place 1 has C 4, T 20; place 2
    // has C 1, T 5. Under policy 2 place 0 has level 5 and place 1 level 2.
    pub(crate) fn new(rt: &'a P, name: &str, policy: Policy) -> io::Result<Self> {
        let number = policy as u64;
        print!(rt; "{name}. Policy {number}")?;
        let (level0, level1) = if policy == Policy::FixedPriority {
            (5, 2)
        } else {
            (0, 0)
        };
        let fresh = Table::set_up(number);
        let first = fresh.table.open(0, reserve(level0, 3, 10));
        let second = first.table.open(1, reserve(level1, 4, 20));
        let third = second.table.open(2, reserve(0, 1, 5));
        let right = [fresh, first, second, third]
            .iter()
            .all(|answer| answer.outcome.is_ok());
        if !right {
            print!(rt; " [MISMATCH: the set-up or an open was refused]")?;
        }
        Ok(Bench {
            rt,
            table: third.table,
            right,
        })
    }

    // Ends the line; whether all was as the notebook says.
    pub(crate) fn end(self) -> io::Result<bool> {
        if self.right {
            println!(self.rt; ". As the notebook says.")?;
        } else {
            println!(self.rt; ". NOT as the notebook says.")?;
        }
        Ok(self.right)
    }

    // Where something else was found than the notebook says, prints what it says and keeps that not all was right.
    fn compare(&mut self, found: u64, wanted: u64) -> io::Result<()> {
        if found != wanted {
            self.right = false;
            print!(self.rt; " [MISMATCH: the notebook says {wanted}]")?;
        }
        Ok(())
    }

    // Takes the table that a call handed back, and prints and compares what it came to.
    fn after(&mut self, answer: Answer<()>, wanted: Result<(), Refusal>) -> io::Result<()> {
        self.table = answer.table;
        self.heard(&answer.outcome, &wanted)
    }

    // Prints and compares what a call came to.
    fn heard<T>(
        &mut self,
        outcome: &Result<T, Refusal>,
        wanted: &Result<T, Refusal>,
    ) -> io::Result<()> {
        match outcome {
            Ok(_) => print!(self.rt; " done")?,
            Err(refusal) => print!(self.rt; " refused with {}", *refusal as u64)?,
        }
        self.compare_outcomes(outcome, wanted)
    }

    // Compares what a call came to.
    fn compare_outcomes<T>(
        &mut self,
        outcome: &Result<T, Refusal>,
        wanted: &Result<T, Refusal>,
    ) -> io::Result<()> {
        self.compare(number_of(outcome), number_of(wanted))
    }

    pub(crate) fn open(
        &mut self,
        place: u64,
        level: u64,
        cap: u64,
        gap: u64,
        wanted: Result<(), Refusal>,
    ) -> io::Result<()> {
        print!(self.rt; "; open {place}")?;
        self.after(self.table.open(place, reserve(level, cap, gap)), wanted)
    }

    pub(crate) fn close(&mut self, place: u64, wanted: Result<(), Refusal>) -> io::Result<()> {
        print!(self.rt; "; close {place}")?;
        self.after(self.table.close(place), wanted)
    }

    pub(crate) fn arrive(
        &mut self,
        place: u64,
        budget: u64,
        away: u64,
        wanted: Result<(), Refusal>,
    ) -> io::Result<()> {
        print!(self.rt; "; arrive {place} ({budget}, {away})")?;
        let request = Request {
            budget: Span(budget),
            away: Span(away),
        };
        self.after(self.table.arrive(place, request), wanted)
    }

    pub(crate) fn depart(&mut self, place: u64, wanted: Result<(), Refusal>) -> io::Result<()> {
        print!(self.rt; "; depart {place}")?;
        self.after(self.table.depart(place), wanted)
    }

    // Prints as many slots of a record as both have, and compares each.
    fn show_slots(&mut self, found: &[u8], wanted: &[u8]) -> io::Result<()> {
        for (&found, &wanted) in found.iter().zip(wanted) {
            print!(self.rt; " {found}")?;
            self.compare(u64::from(found), u64::from(wanted))?;
        }
        Ok(())
    }

    // As many slots as are wanted, into a record of sixteen bytes.
    pub(crate) fn slots(&mut self, wanted: &[u8]) -> io::Result<()> {
        print!(self.rt; "; slots")?;
        let mut found = [9u8; 16];
        let answer = self.table.advance(Span(wanted.len() as u64), &mut found, 0);
        self.table = answer.table;
        self.show_slots(&found, wanted)?;
        self.compare_outcomes(&answer.outcome, &Ok(()))
    }

    // An advance into a record whose bytes do not matter; the start stands beside it, as in the call.
    pub(crate) fn advance(
        &mut self,
        n: u64,
        record: &mut [u8],
        start: usize,
        wanted: Result<(), Refusal>,
    ) -> io::Result<()> {
        let length = record.len();
        print!(self.rt; "; advance {n} into {length} bytes from {start}")?;
        self.after(self.table.advance(Span(n), record, start), wanted)
    }

    // The record as it is now.
    pub(crate) fn holds(&mut self, found: &[u8], wanted: &[u8]) -> io::Result<()> {
        print!(self.rt; "; the record holds")?;
        self.show_slots(found, wanted)?;
        self.compare(found.len() as u64, wanted.len() as u64)
    }

    // Prints and compares what an election came to, and compares the place, which is not printed.
    fn named(
        &mut self,
        outcome: Result<Option<usize>, Refusal>,
        wanted: Result<Option<usize>, Refusal>,
    ) -> io::Result<()> {
        self.heard(&outcome, &wanted)?;
        self.compare(named_number(&outcome), named_number(&wanted))
    }

    // The election: whose slot comes next.
    pub(crate) fn election(&mut self, wanted: Result<Option<usize>, Refusal>) -> io::Result<()> {
        print!(self.rt; "; election")?;
        let outcome = self.table.election();
        self.named(outcome, wanted)
    }

    // One slot.
    pub(crate) fn slot(&mut self, wanted: Result<Option<usize>, Refusal>) -> io::Result<()> {
        print!(self.rt; "; slot")?;
        let answer = self.table.slot();
        self.table = answer.table;
        self.named(answer.outcome, wanted)
    }

    // The clock.
    pub(crate) fn clock(&mut self, wanted: u64) -> io::Result<()> {
        let tick = self.table.now.0;
        print!(self.rt; "; clock {tick}")?;
        self.compare(tick, wanted)
    }

    // How the last job of the place ended; nothing where there is no such place.
    pub(crate) fn ending(&mut self, place: u64, wanted: Ending) -> io::Result<()> {
        let Some(p) = self.table.places.get(place as usize) else {
            return Ok(());
        };
        let ending = p.ending;
        print!(self.rt; "; ending of {place} is {ending}")?;
        self.compare(ending, wanted as u64)
    }

    // The table by hand: all slots so far were idle, and the clock is here.
    pub(crate) fn all_idle_until(&mut self, tick: u64) -> io::Result<()> {
        print!(self.rt; "; by hand, all idle until {tick}")?;
        self.table.now = Instant(tick);
        self.table.idle = Span(tick);
        Ok(())
    }

    // The table of zeros, as a refused set-up hands it back.
    pub(crate) fn zeros(&mut self) -> io::Result<()> {
        print!(self.rt; "; set up with policy 3")?;
        self.after(Table::set_up(3), Err(Refusal::NoPolicy))
    }

    // Whether the whole table is as it was.
    pub(crate) fn unchanged(&mut self, before: &Table) -> io::Result<()> {
        if self.table == *before {
            print!(self.rt; "; nothing changed")
        } else {
            self.right = false;
            print!(self.rt; " [MISMATCH: the notebook says that nothing changed]")
        }
    }
}
