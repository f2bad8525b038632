// Whether the live jobs fit: the test by sums, for any numbers. The crate rules proves it equal to the sentence on plans.

ghost use Rattle.std.specs.Prelude.{◌≡◌, ℕ, eqb, leb};
ghost use Rattle.std.specs.List.{list_all, sum_by};
ghost use Rattle.std.specs.Fn.{FnReturnsAt};
ghost use Rattle.rules.specs.Numbers.{place_count};
ghost use Rattle.rules.specs.Fit.{due, demand, job_of, jobs_of};
ghost use Rattle.table.specs.Dress.{ruled};
ghost use Rattle.table.specs.Leaves.{IsLeft, fits_at, overfull};

use crate::Table;
use rules::{Place, Policy};
use time::{Instant, Span};

// What the job of this place still needs by the deadline.
#[tactic(auto, unfolding(rules::specs::Fit::due))]
fn due_by(deadline: Instant, p: &Place) -> Span
    ensures { result.0 ≡ due deadline.0 (job_of p.now) }
{
    if p.is_live() && p.deadline <= deadline {
        p.remaining
    } else {
        Span(0)
    }
}

impl Table {
    // What is left of a span after each place has taken its share of it; none where the shares are longer.
    pub(crate) fn left_after<F: Fn(&Place) -> Span>(&self, span: Span, share: F) -> Option<Span>
        requires { F.IsAlwaysCallable share }
        ensures { (f : Place → ℕ) → ((p : Place) (s : Span) → FnReturnsAt F.Fn share p s → s.0 ≡ f p) → IsLeft span (sum_by f self.entry.now.places) result }
    {
        let mut left = span;
        for p in &self.places {
            let taken = share(p);
            if left < taken {
                return None;
            }
            left = left.less(taken);
        }
        Some(left)
    }

    // Whether the remaining slots of all live jobs up to the deadline are at most the span.
    fn demand_is_within(&self, deadline: Instant, span: Span) -> bool
        ensures { result ≡ leb (demand (jobs_of (ruled self.entry.now)) place_count deadline.0) span.0 }
    {
        self.left_after(span, |p| due_by(deadline, p)).is_some()
    }

    // Whether the sum up to this place's deadline is small enough, where a job is live there.
    fn fits_at(&self, p: &Place) -> bool
        ensures { result ≡ fits_at (ruled self.entry.now) p.now }
    {
        !p.is_live() || self.demand_is_within(p.deadline, p.deadline.since(self.now))
    }

    // Whether the sum is small enough at each live deadline.
    fn fits(&self) -> bool
        ensures { result ≡ list_all (fits_at (ruled self.entry.now)) self.entry.now.places }
    {
        self.places.iter().all(|p| self.fits_at(p))
    }

    // Under earliest deadline, whether the live jobs do not fit.
    pub(crate) fn is_overfull(&self) -> bool
        ensures { result ≡ overfull (ruled self.entry.now) }
    {
        self.is_under(Policy::EarliestDeadline) && !self.fits()
    }
}
