ghost use Rattle.std.specs.Prelude.{◌≡◌};
ghost use Rattle.page_store.specs.Moves.{Moved};

use super::{PageStore, Refusal};

// Moves the page of a slot to a slot of another store, by way of a buffer of one page.
pub fn move_page<A: PageStore, B: PageStore>(
    source: &mut A,
    slot: usize,
    target: &mut B,
    place: usize,
    buffer: &mut [u8],
) -> Result<(), Refusal>
    ensures { Moved (A.PageStore.model source.old) (A.PageStore.model source.new) slot (B.PageStore.model target.old) (B.PageStore.model target.new) place buffer.old buffer.new result }
{
    source.check_length(buffer.len())?;
    target.check_length(buffer.len())?;
    source.check_slot(slot)?;
    target.check_slot(place)?;
    source.fetch(slot, buffer)?;
    target.put(place, buffer)?;
    source.empty(slot)
}
