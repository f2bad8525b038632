// Which tables are sound: the clauses of the rules, each a function, decided for any numbers.

ghost use Rattle.std.specs.Prelude.{◌≡◌, true, false, MatchResult};
ghost use Rattle.std.specs.List.{list_all};
ghost use Rattle.rules.specs.declared.Refusal.TheVariants.{NotSound};
ghost use Rattle.rules.specs.Sound.{closed_is_zero, open_in_bounds, live_in_bounds, no_job_is_zero, known_policy, sound, sound_place, totals_add_up};
ghost use Rattle.table.specs.Dress.{ruled, SoundGives};

use crate::Table;
use rules::{Ending, LAST_LEVEL, LAST_TICK, LONGEST_SPAN, Place, Policy, Refusal};
use time::{Instant, Span};

// A closed place is zero in everything but its total.
fn closed_is_zero(p: &Place) -> bool
    ensures { result ≡ closed_is_zero p.now }
{
    *p == Place {
        total: p.total,
        ..Place::default()
    }
}

// An open place has level ≤ 7, 1 ≤ cap ≤ gap ≤ 1,000,000, next ≤ now + gap, ending 0 to 3. The sum is asked as a difference,
// which no word cuts off.
fn open_in_bounds(now: Instant, p: &Place) -> bool
    ensures { result ≡ open_in_bounds now.0 p.now }
{
    p.is_open()
        && p.level <= LAST_LEVEL
        && Span(1) <= p.cap
        && p.cap <= p.gap
        && p.gap <= LONGEST_SPAN
        && p.next.since(now) <= p.gap
        && p.ending <= Ending::Late as u64
}

// No live job: budget, remaining and deadline are 0.
fn no_job_is_zero(p: &Place) -> bool
    ensures { result ≡ no_job_is_zero p.now }
{
    p.live == 0 && p.budget == Span(0) && p.remaining == Span(0) && p.deadline == Instant(0)
}

// A live job has ending 0, 1 ≤ remaining ≤ budget ≤ cap, budget − remaining ≤ total, now < deadline ≤ 4,000,000,000,
// deadline ≤ now + 1,000,000, asked as a difference too.
#[tactic(auto, using(crate::proofs::Laws::is_le_leb))]
fn live_in_bounds(now: Instant, p: &Place) -> bool
    ensures { result ≡ live_in_bounds now.0 p.now }
{
    p.is_live()
        && p.ending == 0
        && Span(1) <= p.remaining
        && p.remaining <= p.budget
        && p.budget <= p.cap
        && p.budget.less(p.remaining) <= p.total
        && now < p.deadline
        && p.deadline <= LAST_TICK
        && p.deadline.since(now) <= LONGEST_SPAN
}

// A closed place, one without a job, or one with a live job on an open place.
#[tactic(auto, unfolding(rules::specs::Sound::sound_place))]
fn place_is_sound(now: Instant, p: &Place) -> bool
    ensures { result ≡ sound_place now.0 p.now }
{
    if p.opened == 0 {
        return closed_is_zero(p);
    }
    if p.live == 0 {
        return open_in_bounds(now, p) && no_job_is_zero(p);
    }
    open_in_bounds(now, p) && live_in_bounds(now, p)
}

impl Table {
    // Each place is sound.
    fn places_are_sound(&self) -> bool
        ensures { result ≡ list_all (sound_place self.entry.now.now.0) self.entry.now.places }
    {
        self.places.iter().all(|p| place_is_sound(self.now, p))
    }

    // The totals plus idle equal now.
    fn clock_adds_up(&self) -> bool
        ensures { result ≡ totals_add_up (ruled self.entry.now) }
    {
        self.left_after(self.now.since(Instant(0)), |p| p.total) == Some(self.idle)
    }

    // The policy is one of the two.
    fn has_a_policy(&self) -> bool
        ensures { result ≡ known_policy self.entry.now.policy }
    {
        Policy::try_from(self.policy).is_ok()
    }

    // Whether the table is sound.
    #[tactic(auto, using(crate::proofs::Clauses::sound_in_turn, crate::proofs::Laws::is_le_leb))]
    pub fn is_sound(&self) -> bool
        ensures { SoundGives self.entry.now result }
    {
        self.has_a_policy()
            && self.now <= LAST_TICK
            && self.clock_adds_up()
            && self.places_are_sound()
            && !self.is_overfull()
    }

    // A table that is not sound is refused.
    pub(crate) fn checked(&self) -> Result<(), Refusal>
        ensures { MatchResult result (λ _. sound (ruled self.entry.now) ≡ true) (λ e. (e ≡ NotSound) × (sound (ruled self.entry.now) ≡ false)) }
    {
        if self.is_sound() {
            Ok(())
        } else {
            Err(Refusal::NotSound)
        }
    }
}
