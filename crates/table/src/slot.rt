// One slot, in the four steps of the rules.

ghost use Rattle.std.specs.Prelude.{◌≡◌, true, ◌<◌, ◌≤◌};
ghost use Rattle.rules.specs.Numbers.{last_tick, fixed_priority};
ghost use Rattle.rules.specs.Kinds.{ending_number};
ghost use Rattle.rules.specs.Sound.{sound};
ghost use Rattle.rules.specs.Election.{elected};
ghost use Rattle.rules.specs.Slot.{ended as ended_with, served as served_as, unless_late, slot};
ghost use Rattle.rules.specs.Call.{Slot, called};
ghost use Rattle.table.specs.Dress.{ruled, dressed, who, whose, named_in, Answers};
ghost use Rattle.table.specs.Leaves.{after_serving, late_table, RoomToServe};

use crate::{Answer, Table};
use rules::{Ending, Place, Policy, Refusal};
use time::{Instant, Span};

// The place with its job gone, and how it ended; next stays.
pub(crate) fn ended(ending: Ending, p: Place) -> Place
    ensures { result ≡ ended_with (ending_number ending) p }
{
    Place {
        live: 0,
        budget: Span(0),
        remaining: Span(0),
        deadline: Instant(0),
        ending: ending as u64,
        ..p
    }
}

// Steps 2 and 3 of the elected place: one remaining slot less, its total one more; a job with none left is gone with ending 2.
#[tactic(auto, unfolding(rules::specs::Slot::served))]
fn served(p: Place) -> Place
    requires { p.total.0 < last_tick }
    ensures { result ≡ served_as p }
{
    let given = Place {
        remaining: p.remaining.less(Span(1)),
        total: p.total.plus(Span(1)),
        ..p
    };
    if given.remaining == Span(0) {
        ended(Ending::Spent, given)
    } else {
        given
    }
}

// Step 4 of a place: a job still live whose deadline is ≤ now is gone with ending 3.
#[tactic(auto, unfolding(rules::specs::Slot::unless_late))]
fn unless_late(now: Instant, p: Place) -> Place
    ensures { result ≡ unless_late fixed_priority now.0 p }
{
    if p.is_live() && p.deadline <= now {
        ended(Ending::Late, p)
    } else {
        p
    }
}

impl Table {
    // Steps 2 and 3: the elected place is served, or idle grows by one; now grows by one. That there is room for it is asked here and kept by no
    // type, since these counts grow.
    fn serve(&mut self, elected: Option<usize>)
        requires { RoomToServe self.old elected }
        ensures { self.new ≡ after_serving (who elected) self.old }
    {
        self.now = self.now.plus(Span(1));
        match elected {
            Some(place) => self.places[place] = served(self.places[place]),
            None => self.idle = self.idle.plus(Span(1)),
        }
    }

    // Step 4, under fixed priority alone.
    fn end_late(&mut self)
        ensures { self.new ≡ late_table self.old }
    {
        if self.is_under(Policy::FixedPriority) {
            let now = self.now;
            for p in &mut self.places {
                *p = unless_late(now, *p);
            }
        }
    }

    // One slot of a sound table, before the end of the clock. That is a clause here and in `run`, and no type of sound tables: between the steps
    // the table is not sound, so such a type would have to own it, and be filled and emptied in each call.
    pub(crate) fn give_slot(&mut self) -> Option<usize>
        requires { (sound (ruled self.old) ≡ true) × (self.old.now.0 < last_tick) }
        ensures whose { who result ≡ elected (ruled self.old) }
        ensures table { self.new ≡ dressed (slot (ruled self.old)) }
    {
        let elected = self.elect();
        self.serve(elected);
        self.end_late();
        elected
    }

    // One slot: whose it was.
    #[tactic(auto, unfolding(rules::specs::Call::called, rules::specs::Call::refusal, rules::specs::Call::checks, rules::specs::Call::judge, rules::specs::Call::effect))]
    fn try_slot(&mut self) -> Result<Option<usize>, Refusal>
        ensures answer { Answers (called (ruled self.old) Slot) result self.new }
        ensures whose { whose result ≡ named_in (ruled self.old) Slot }
    {
        self.checked()?;
        self.reaches(Span(1))?;
        Ok(self.give_slot())
    }

    // One slot: whose it was, and the table after it.
    pub fn slot(self) -> Answer<Option<usize>>
        ensures answer { Answers (called (ruled self) Slot) result.outcome result.table }
        ensures whose { whose result.outcome ≡ named_in (ruled self) Slot }
    {
        self.after(|table| table.try_slot())
    }
}
