// The acts and the conditions that numbers stand for.
ghost use Rattle.book.specs.Operands.{IsAct, IsCondition};

use crate::table::{Act, Condition};
use format::refusal::Refusal;

// A number that stands for no act is outside the values stated for it.
impl TryFrom<u8> for Act {
    type Error = Refusal;

    ghost try_from_gives = { IsAct };

    fn try_from(number: u8) -> Result<Act, Refusal> {
        match number {
            1 => Ok(Act::Look),
            2 => Ok(Act::Put),
            _ => Err(Refusal::Outside),
        }
    }
}

// A number that stands for no condition is outside the values stated for it.
impl TryFrom<u8> for Condition {
    type Error = Refusal;

    ghost try_from_gives = { IsCondition };

    fn try_from(number: u8) -> Result<Condition, Refusal> {
        match number {
            0 => Ok(Condition::Always),
            1 => Ok(Condition::NotZero),
            2 => Ok(Condition::Zero),
            _ => Err(Refusal::Outside),
        }
    }
}
