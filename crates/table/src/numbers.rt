// An outcome in numbers, as a program in C and the notebook have it.

ghost use Rattle.std.specs.Prelude.{◌≡◌};
ghost use Rattle.rules.specs.Kinds.{outcome_number};
ghost use Rattle.rules.specs.Election.{number};
ghost use Rattle.table.specs.Dress.{who, whose};

use rules::{NOBODY, Refusal};

// 0 where the call is done, or the number of the refusal.
pub fn number_of<T>(outcome: &Result<T, Refusal>) -> u64
    ensures { result ≡ outcome_number outcome.now }
{
    match outcome {
        Ok(_) => 0,
        Err(refusal) => *refusal as u64,
    }
}

// The number of a place, or 255 for nobody.
#[tactic(auto, unfolding(rules::specs::Election::number))]
pub(crate) fn place_number(place: Option<usize>) -> u64
    ensures { result ≡ number (who place) }
{
    match place {
        Some(place) => place as u64,
        None => u64::from(NOBODY),
    }
}

// The number of the place that an outcome names: nobody's where the call is refused.
pub fn named_number(outcome: &Result<Option<usize>, Refusal>) -> u64
    ensures { result ≡ number (whose outcome.now) }
{
    match outcome {
        Ok(place) => place_number(*place),
        Err(_) => place_number(None),
    }
}
