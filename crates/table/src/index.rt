// Steps of an index into a table.
ghost use Rattle.std.specs.Prelude.{◌≡◌};
ghost use Rattle.answer.specs.Answers.{steps_of};
ghost use Rattle.table.specs.Answers.{small_step_of};
ghost use Rattle.table.specs.Index.{index_forward, index_backward, index_steps};

use crate::up_to::PageTableIndex;
use answer::Refusal;

impl PageTableIndex {
    // The index count entries on; none above 511. On and back are two operations, and the source's names.
    pub fn forward_checked(
        start: PageTableIndex,
        count: u64,
    ) -> Result<Option<PageTableIndex>, Refusal>
        ensures { small_step_of result ≡ index_forward start.0 count }
    {
        let next = start.into_u64()?.checked_add(count);
        Ok(next.and_then(|index| PageTableIndex::new(index).ok()))
    }

    // The index count entries back; none below 0.
    pub fn backward_checked(
        start: PageTableIndex,
        count: u64,
    ) -> Result<Option<PageTableIndex>, Refusal>
        ensures { small_step_of result ≡ index_backward start.0 count }
    {
        let next = start.into_u64()?.checked_sub(count);
        Ok(next.and_then(|index| PageTableIndex::new(index).ok()))
    }

    // How many entries lead from start to end; none if end is lower.
    pub fn steps_between(start: PageTableIndex, end: PageTableIndex) -> Result<Option<u64>, Refusal>
        ensures { steps_of result ≡ index_steps start.0 end.0 }
    {
        let start = start.into_u64()?;
        let end = end.into_u64()?;
        Ok(end.checked_sub(start))
    }
}
