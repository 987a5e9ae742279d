// The comparisons that numbers stand for.
ghost use Rattle.policy.specs.Comparisons.{IsComparison};

use crate::table::Comparison;
use format::refusal::Refusal;

// A number that stands for no comparison is outside the values stated for it.
impl TryFrom<u8> for Comparison {
    type Error = Refusal;

    ghost try_from_gives = { IsComparison };

    fn try_from(number: u8) -> Result<Comparison, Refusal> {
        match number {
            0 => Ok(Comparison::Equal),
            1 => Ok(Comparison::Unequal),
            2 => Ok(Comparison::Less),
            3 => Ok(Comparison::AtMost),
            _ => Err(Refusal::Outside),
        }
    }
}
