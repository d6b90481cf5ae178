ghost use Rattle.std.specs.Prelude.{◌≡◌, ◌<◌, [], ◌∷◌, ◌++◌, length, Some, None};
ghost use Rattle.page_store.specs.Stores.{empty_store, size_of, slot_of, with_slot};
ghost use Rattle.page_store.specs.Calls.{answer, after, put_refusal, empty_refusal, Put, Emptied};
ghost use Rattle.swap_log.specs.Layout.{Found, live, killed, with_room, put_at_the_end, OneLivePosition, log_refusal};
ghost use Rattle.swap_log.specs.Meaning.{positions_of, position_count, model_of, sound_log};

use super::SwapLog;
use super::moves::copy_page;
use page_store::{PageStore, Refusal, check_sizes};

// The number of a dead position. The layout of the lent memory is given, and this number with it.
const DEAD: u16 = 65535;

impl<'a> SwapLog<'a> {
    // Whether a log of `count` slots of `page` bytes and `positions` positions can be made over this memory.
    pub fn check(
        page: usize,
        count: usize,
        positions: usize,
        numbers: &[u16],
        bytes: &[u8],
    ) -> Result<(), Refusal>
        ensures { result ≡ answer (log_refusal page count positions (length numbers.now) (length bytes.now)) tt }
    {
        check_sizes(page, count)?;
        if !(count..=2 * count).contains(&positions) {
            return Err(Refusal::StoreSize);
        }
        if numbers.len() != positions || bytes.len() != positions * page {
            return Err(Refusal::WrongLength);
        }
        Ok(())
    }

    // The log over this memory, empty whatever the memory held.
    pub fn new(
        page: usize,
        count: usize,
        positions: usize,
        numbers: &'a mut [u16],
        bytes: &'a mut [u8],
    ) -> SwapLog<'a>
        requires { log_refusal page count positions (length numbers.old) (length bytes.old) ≡ None }
        ensures starts_empty { model_of result ≡ empty_store page count }
        ensures no_position_is_in_use { positions_of result ≡ [] }
        ensures keeps_the_memory { (result.numbers.now ≡ numbers.old) × (result.bytes.now ≡ bytes.old) }
    {
        SwapLog {
            numbers,
            bytes,
            page,
            count,
            end: 0,
        }
    }
}

impl SwapLog<'_> {
    // The position that bears the number of a slot.
    fn find(&self, slot: usize) -> Option<usize>
        ensures { Found self.now.numbers.now self.now.end slot result }
    {
        self.numbers[..self.end]
            .iter()
            .position(|&number| usize::from(number) == slot)
    }

    // Makes the position of a slot dead.
    fn kill(&mut self, slot: usize) -> Result<(), Refusal>
        requires { slot < size_of (model_of self.old) }
        ensures answers { result ≡ answer (empty_refusal (model_of self.old) slot) tt }
        ensures positions { positions_of self.new ≡ killed slot (positions_of self.old) }
        ensures model { model_of self.new ≡ with_slot (model_of self.old) slot None }
        ensures count { position_count self.new ≡ position_count self.old }
    {
        let position = self.find(slot).ok_or(Refusal::EmptySlot)?;
        self.numbers[position] = DEAD;
        Ok(())
    }

    // Moves the live positions to the front, in their order, where all positions are in use.
    fn make_room(&mut self)
        ensures positions { positions_of self.new ≡ with_room (position_count self.old) (positions_of self.old) }
        ensures model { model_of self.new ≡ model_of self.old }
        ensures count { position_count self.new ≡ position_count self.old }
    {
        if self.end < self.numbers.len() {
            return;
        }
        let SwapLog {
            numbers,
            bytes,
            page,
            end,
            ..
        } = self;
        // the numbers are written while they are gone over, so no iterator may lend them
        let mut front = 0;
        for at in 0..*end {
            let number = numbers[at];
            if number != DEAD {
                numbers[front] = number;
                copy_page(bytes, *page, at, front);
                front += 1;
            }
        }
        *end = front;
    }

    // Writes the number of a slot that has no position, and its page, at the end, where there is room or room is made.
    fn append(&mut self, slot: usize, page: &[u8])
        requires slot { slot < size_of (model_of self.old) }
        requires gone { slot_of (model_of self.old) slot ≡ None }
        requires size { length page.now ≡ self.old.page }
        ensures positions { positions_of self.new ≡ with_room (position_count self.old) (positions_of self.old) ++ record { number = slot; page = page.now } ∷ [] }
        ensures model { model_of self.new ≡ with_slot (model_of self.old) slot (Some page.now) }
    {
        self.make_room();
        let at = self.end * self.page;
        let stop = at + self.page;
        let SwapLog {
            numbers,
            bytes,
            end,
            ..
        } = self;
        bytes[at..stop].copy_from_slice(page);
        numbers[*end] = slot as u16;
        *end += 1;
    }
}

impl PageStore for SwapLog<'_> {
    ghost model = { model_of };

    ghost sound = { sound_log };

    fn page_size(&self) -> usize {
        self.page
    }

    fn slot_count(&self) -> usize {
        self.count
    }

    #[tactic(auto, using(crate::proofs::Founds::found_is_full))]
    fn is_full(&self, slot: usize) -> Result<bool, Refusal> {
        self.check_slot(slot)?;
        Ok(self.find(slot).is_some())
    }

    fn fetch(&self, slot: usize, buffer: &mut [u8]) -> Result<(), Refusal> {
        self.check_length(buffer.len())?;
        self.check_slot(slot)?;
        let position = self.find(slot).ok_or(Refusal::EmptySlot)?;
        let at = position * self.page;
        let stop = at + self.page;
        buffer.copy_from_slice(&self.bytes[at..stop]);
        Ok(())
    }

    fn put(&mut self, slot: usize, page: &[u8]) -> Result<(), Refusal>
        ensures store { Put (model_of self.old) (model_of self.new) slot page.now result }
        ensures one_live_position { OneLivePosition self.new.count (positions_of self.new) }
        ensures compaction_keeps_order { live (positions_of self.new) ≡ after (put_refusal (model_of self.old) slot (length page.now)) (live (killed slot (positions_of self.old)) ++ record { number = slot; page = page.now } ∷ []) (live (positions_of self.old)) }
        ensures written_at_the_end { positions_of self.new ≡ after (put_refusal (model_of self.old) slot (length page.now)) (put_at_the_end (position_count self.old) (positions_of self.old) slot page.now) (positions_of self.old) }
    {
        self.check_length(page.len())?;
        self.check_slot(slot)?;
        let _ = self.kill(slot);
        self.append(slot, page);
        Ok(())
    }

    #[tactic(auto, using(crate::proofs::Founds::killed_anyway))]
    fn empty(&mut self, slot: usize) -> Result<(), Refusal>
        ensures store { Emptied (model_of self.old) (model_of self.new) slot result }
        ensures one_live_position { OneLivePosition self.new.count (positions_of self.new) }
        ensures leaves_the_position_dead { positions_of self.new ≡ after (empty_refusal (model_of self.old) slot) (killed slot (positions_of self.old)) (positions_of self.old) }
    {
        self.check_slot(slot)?;
        self.kill(slot)
    }
}
