// Set up, open and close a reserve, a job's arrival and departure. The check opens the definitions that the next line names at each goal.

#![tactic(auto, unfolding(rules::specs::Call::called, rules::specs::Call::refusal, rules::specs::Call::checks, rules::specs::Call::judge, rules::specs::Call::effect))]

ghost use Rattle.std.specs.Prelude.{◌≡◌, ◌+◌, ◌<◌, ◌≤◌, MatchResult};
ghost use Rattle.time.specs.Kinds.{largest};
ghost use Rattle.rules.specs.declared.Refusal.TheVariants.{NoPlace, BeyondClock};
ghost use Rattle.rules.specs.Numbers.{place_count, last_tick};
ghost use Rattle.rules.specs.Table.{fresh_table, closed_place};
ghost use Rattle.rules.specs.Call.{Open, Close, Arrive, Depart, called, set_up, bad_reserve, bad_job, with_job, opened as opened_with};
ghost use Rattle.table.specs.Leaves.{policy_or_none};
ghost use Rattle.table.specs.Dress.{ruled, dressed, Answers};

use crate::slot::ended;
use crate::{Answer, Request, Reserve, Table};
use rules::{Ending, LAST_LEVEL, LAST_TICK, LONGEST_SPAN, PLACES, Place, Policy, Refusal};
use time::{Instant, Span};

// A closed place: zero in everything but its total.
fn closed_place(total: Span) -> Place
    ensures { result ≡ closed_place total }
{
    Place {
        total,
        ..Place::default()
    }
}

// A place open with these figures; next 0, no job, ending 0.
fn open_place(reserve: Reserve, total: Span) -> Place
    ensures { result ≡ opened_with reserve.level reserve.cap.0 reserve.gap.0 (closed_place total) }
{
    Place {
        opened: 1,
        level: reserve.level,
        cap: reserve.cap,
        gap: reserve.gap,
        ..closed_place(total)
    }
}

// The place with a live job: remaining is the budget, deadline now + away, ending 0; next becomes now + gap.
fn with_job(now: Instant, p: Place, request: Request) -> Place
    requires { (now.0 + p.gap.0 ≤ largest) × (now.0 + request.away.0 ≤ largest) }
    ensures { result ≡ with_job now.0 p request.budget.0 request.away.0 }
{
    Place {
        next: now.plus(p.gap),
        live: 1,
        budget: request.budget,
        remaining: request.budget,
        deadline: now.plus(request.away),
        ending: 0,
        ..p
    }
}

// Clock 0, idle 0, all places closed, all totals 0; with no policy, the table of zeros.
fn fresh_table(policy: Option<Policy>) -> Table
    ensures { result ≡ dressed (fresh_table (policy_or_none policy)) }
{
    Table {
        policy: policy.map_or(0, |policy| policy as u64),
        now: Instant(0),
        idle: Span(0),
        places: [Place::default(); PLACES],
    }
}

// The index of the place of this number; a number that names none is refused. The calls take any number, as C does.
fn index_of(place: u64) -> Result<usize, Refusal>
    ensures { MatchResult result (λ i. (i ≡ place) × (place < place_count)) (λ e. (e ≡ NoPlace) × (place_count ≤ place)) }
{
    if place < PLACES as u64 {
        Ok(place as usize)
    } else {
        Err(Refusal::NoPlace)
    }
}

impl Reserve {
    // Bad figures: level > 7, cap = 0, cap > gap, gap > 1,000,000.
    fn is_bad(self) -> bool
        ensures { result ≡ bad_reserve self.level self.cap.0 self.gap.0 }
    {
        let Reserve { level, cap, gap } = self;
        LAST_LEVEL < level || cap == Span(0) || gap < cap || LONGEST_SPAN < gap
    }
}

impl Request {
    // Bad figures at this place: budget = 0, budget > cap, away = 0, away > 1,000,000.
    fn is_bad_at(self, p: &Place) -> bool
        ensures { result ≡ bad_job p.now self.budget.0 self.away.0 }
    {
        let Request { budget, away } = self;
        budget == Span(0) || p.cap < budget || away == Span(0) || LONGEST_SPAN < away
    }
}

impl Table {
    // An instant this far ahead is still on the clock; one beyond it is refused.
    pub(crate) fn reaches(&self, span: Span) -> Result<(), Refusal>
        ensures { MatchResult result (λ _. self.entry.now.now.0 + span.0 ≤ last_tick) (λ e. (e ≡ BeyondClock) × (last_tick < self.entry.now.now.0 + span.0)) }
    {
        if self.now.plus(span) <= LAST_TICK {
            Ok(())
        } else {
            Err(Refusal::BeyondClock)
        }
    }

    // Opens the place as this reserve.
    fn try_open(&mut self, place: u64, reserve: Reserve) -> Result<(), Refusal>
        ensures { Answers (called (ruled self.old) (Open place reserve.level reserve.cap.0 reserve.gap.0)) result self.new }
    {
        self.checked()?;
        let p = &mut self.places[index_of(place)?];
        if p.is_open() {
            return Err(Refusal::AlreadyOpen);
        }
        if reserve.is_bad() {
            return Err(Refusal::BadFigures);
        }
        *p = open_place(reserve, p.total);
        Ok(())
    }

    // Closes the place: it returns to zeros, its total kept.
    fn try_close(&mut self, place: u64) -> Result<(), Refusal>
        ensures { Answers (called (ruled self.old) (Close place)) result self.new }
    {
        self.checked()?;
        let p = &mut self.places[index_of(place)?];
        if !p.is_open() {
            return Err(Refusal::NotOpen);
        }
        if p.is_live() {
            return Err(Refusal::JobLive);
        }
        if self.now < p.next {
            return Err(Refusal::TooEarly);
        }
        *p = closed_place(p.total);
        Ok(())
    }

    // A job arrives at the place.
    fn try_arrive(&mut self, place: u64, request: Request) -> Result<(), Refusal>
        ensures { Answers (called (ruled self.old) (Arrive place request.budget.0 request.away.0)) result self.new }
    {
        self.checked()?;
        let at = index_of(place)?;
        let p = self.places[at];
        if !p.is_open() {
            return Err(Refusal::NotOpen);
        }
        if request.is_bad_at(&p) {
            return Err(Refusal::BadFigures);
        }
        if p.is_live() {
            return Err(Refusal::JobLive);
        }
        if self.now < p.next {
            return Err(Refusal::TooEarly);
        }
        self.reaches(request.away)?;
        let mut after = *self;
        after.places[at] = with_job(self.now, p, request);
        if after.is_overfull() {
            return Err(Refusal::NoFit);
        }
        *self = after;
        Ok(())
    }

    // The job of the place is withdrawn.
    fn try_depart(&mut self, place: u64) -> Result<(), Refusal>
        ensures { Answers (called (ruled self.old) (Depart place)) result self.new }
    {
        self.checked()?;
        let p = &mut self.places[index_of(place)?];
        if !p.is_open() {
            return Err(Refusal::NotOpen);
        }
        if !p.is_live() {
            return Err(Refusal::NoJob);
        }
        *p = ended(Ending::Left, *p);
        Ok(())
    }

    // A fresh table under this policy: 1 earliest deadline, 2 fixed priority. Any number may be asked for: C passes it, and one that is no
    // policy is refused.
    #[tactic(auto, unfolding(rules::specs::Call::set_up))]
    pub fn set_up(policy: u64) -> Answer<()>
        ensures { Answers (set_up policy) result.outcome result.table }
    {
        match Policy::try_from(policy) {
            Ok(policy) => Answer {
                outcome: Ok(()),
                table: fresh_table(Some(policy)),
            },
            Err(refusal) => Answer {
                outcome: Err(refusal),
                table: fresh_table(None),
            },
        }
    }

    // Opens the place as this reserve.
    pub fn open(self, place: u64, reserve: Reserve) -> Answer<()>
        ensures { Answers (called (ruled self) (Open place reserve.level reserve.cap.0 reserve.gap.0)) result.outcome result.table }
    {
        self.after(|table| table.try_open(place, reserve))
    }

    // Closes the place: it returns to zeros, its total kept.
    pub fn close(self, place: u64) -> Answer<()>
        ensures { Answers (called (ruled self) (Close place)) result.outcome result.table }
    {
        self.after(|table| table.try_close(place))
    }

    // A job arrives at the place, asks for this many slots and wants them within this many ticks.
    pub fn arrive(self, place: u64, request: Request) -> Answer<()>
        ensures { Answers (called (ruled self) (Arrive place request.budget.0 request.away.0)) result.outcome result.table }
    {
        self.after(|table| table.try_arrive(place, request))
    }

    // The job of the place is withdrawn: gone with ending 1.
    pub fn depart(self, place: u64) -> Answer<()>
        ensures { Answers (called (ruled self) (Depart place)) result.outcome result.table }
    {
        self.after(|table| table.try_depart(place))
    }
}
