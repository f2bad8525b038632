// Whose slot comes next: the earliest deadline, or the smallest level, as the table was set up; equal: the lower place number.

ghost use Rattle.std.specs.Prelude.{◌≡◌, eqb};
ghost use Rattle.rules.specs.Kinds.{policy_number, outcome_number};
ghost use Rattle.rules.specs.Election.{rank, elected};
ghost use Rattle.rules.specs.Call.{Elect, called};
ghost use Rattle.table.specs.Dress.{ruled, who, whose, named_in};
ghost use Rattle.table.specs.Leaves.{ahead, rule_of};

use crate::Table;
use rules::{Place, Policy, Refusal};

// The leader of the places seen so far, and its rank.
#[derive(Clone, Copy)]
struct Lead {
    place: usize,
    rank: u64,
}

// What decides under the policy.
fn rank_of(policy: Policy, p: &Place) -> u64
    ensures { result ≡ rank (policy_number policy) p.now }
{
    match policy {
        Policy::EarliestDeadline => p.deadline.0,
        Policy::FixedPriority => p.level,
    }
}

// Of the leader so far and the next place: that place only where it is live and nobody leads, or it has the smaller rank.
#[tactic(auto, unfolding(crate::specs::Leaves::ahead))]
fn leader(policy: Policy, lead: Option<Lead>, place: usize, p: &Place) -> Option<Lead>
    ensures { result ≡ ahead (policy_number policy) lead place p.now }
{
    let rank = rank_of(policy, p);
    if p.is_live() && lead.is_none_or(|lead| rank < lead.rank) {
        Some(Lead { place, rank })
    } else {
        lead
    }
}

impl Table {
    // Whether this is the policy.
    pub(crate) fn is_under(&self, policy: Policy) -> bool
        ensures { result ≡ eqb self.entry.now.policy (policy_number policy) }
    {
        self.policy == policy as u64
    }

    // The policy by which the slots go: earliest deadline under its number, and fixed priority under any other.
    fn rule(&self) -> Policy
        ensures { result ≡ rule_of self.entry.now.policy }
    {
        Policy::try_from(self.policy).unwrap_or(Policy::FixedPriority)
    }

    // The place elected, if any.
    pub(crate) fn elect(&self) -> Option<usize>
        ensures { who result ≡ elected (ruled self.entry.now) }
    {
        let policy = self.rule();
        let mut lead = None;
        for (i, p) in self.places.iter().enumerate() {
            lead = leader(policy, lead, i, p);
        }
        lead.map(|lead| lead.place)
    }

    // Whose slot comes next. Asking changes nothing.
    #[tactic(auto, unfolding(rules::specs::Call::called, rules::specs::Call::refusal, rules::specs::Call::checks, rules::specs::Call::judge))]
    pub fn election(&self) -> Result<Option<usize>, Refusal>
        ensures answer { outcome_number result ≡ (called (ruled self.entry.now) Elect).answer }
        ensures whose { whose result ≡ named_in (ruled self.entry.now) Elect }
    {
        self.checked()?;
        Ok(self.elect())
    }
}
