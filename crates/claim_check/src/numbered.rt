// Items of a list by their numbers, from 1.
ghost use Rattle.std.specs.Prelude.{MatchOption};
ghost use Rattle.good_runs.specs.Faults.{IsNumber};

// The item of this number, if there is one.
pub(crate) fn numbered<T>(items: &[T], number: u32) -> Option<&T>
    ensures { MatchOption result ((item : T) → ¬ IsNumber items.now number item) (λ item. IsNumber items.now number item.now) }
{
    if number == 0 {
        return None;
    }
    items.get(number as usize - 1)
}
