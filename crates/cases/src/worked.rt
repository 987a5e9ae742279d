// The worked cases, as one statement over one table.
ghost use Rattle.cases.specs.Worked.{worked, CaseHolds};
ghost use Rattle.std.specs.List.{AllByRecursion};
ghost use Rattle.std.specs.Prelude.{◌≡◌, length};

// How many worked cases there are; each of them holds.
#[tactic(auto, unfolding(pruning::specs::Marking::marks_of))]
pub fn worked_cases() -> usize
    ensures count { result ≡ length worked }
    ensures hold { AllByRecursion CaseHolds worked }
{
    11
}
