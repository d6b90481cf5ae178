ghost use Rattle.std.specs.Prelude.{◌≡◌, not, length, None, ◌==◌, slice_index};
ghost use Rattle.page_store.specs.Stores.{empty_store};
ghost use Rattle.page_store.specs.Calls.{answer, after, ask_refusal, fetch_refusal, put_refusal, empty_refusal, Asked, Fetched, Put, Emptied};
ghost use Rattle.page_store.specs.Memory.{page_at};
ghost use Rattle.frame_pool.specs.Layout.{saved, cleared, unmarked, pool_refusal};
ghost use Rattle.frame_pool.specs.Meaning.{memory_of, model_of, sound_pool};

use super::FramePool;
use page_store::{PageStore, Refusal, check_sizes};

// The marks of an empty slot and of one that is put. The layout of the lent memory is given, and these numbers with it.
const EMPTY: u8 = 0;

const FULL: u8 = 1;

impl PageStore for FramePool<'_> {
    ghost model = { model_of };

    ghost sound = { sound_pool };

    fn page_size(&self) -> usize {
        self.page
    }

    fn slot_count(&self) -> usize {
        self.marks.len()
    }

    #[tactic(auto, using(crate::proofs::Pools::checked))]
    fn is_full(&self, slot: usize) -> Result<bool, Refusal>
        ensures store { Asked (model_of self.now) slot result }
        ensures mark_tells { result ≡ answer (ask_refusal (model_of self.now) slot) (not (slice_index (memory_of self.now).marks slot == 0)) }
    {
        self.check_slot(slot)?;
        Ok(self.marks[slot] != EMPTY)
    }

    fn fetch(&self, slot: usize, buffer: &mut [u8]) -> Result<(), Refusal>
        ensures store { Fetched (model_of self.now) slot buffer.old buffer.new result }
        ensures slot_lies_at_its_place { buffer.new ≡ after (fetch_refusal (model_of self.now) slot (length buffer.old)) (page_at self.now.page (memory_of self.now).bytes slot) buffer.old }
    {
        self.check_length(buffer.len())?;
        if !self.is_full(slot)? {
            return Err(Refusal::EmptySlot);
        }
        let at = slot * self.page;
        let end = at + self.page;
        buffer.copy_from_slice(&self.bytes[at..end]);
        Ok(())
    }

    #[tactic(auto, using(crate::proofs::Pools::checked))]
    fn put(&mut self, slot: usize, page: &[u8]) -> Result<(), Refusal>
        ensures store { Put (model_of self.old) (model_of self.new) slot page.now result }
        ensures slot_lies_at_its_place { page_at self.old.page (memory_of self.new).bytes slot ≡ after (put_refusal (model_of self.old) slot (length page.now)) page.now (page_at self.old.page (memory_of self.old).bytes slot) }
        ensures keeps_bytes_and_marks_of_other_slots { memory_of self.new ≡ after (put_refusal (model_of self.old) slot (length page.now)) (saved self.old.page (memory_of self.old) slot page.now) (memory_of self.old) }
    {
        self.check_length(page.len())?;
        self.check_slot(slot)?;
        let at = slot * self.page;
        let end = at + self.page;
        let FramePool { bytes, marks, .. } = self;
        bytes[at..end].copy_from_slice(page);
        marks[slot] = FULL;
        Ok(())
    }

    fn empty(&mut self, slot: usize) -> Result<(), Refusal>
        ensures store { Emptied (model_of self.old) (model_of self.new) slot result }
        ensures keeps_all_bytes_and_marks_of_other_slots { memory_of self.new ≡ after (empty_refusal (model_of self.old) slot) (cleared (memory_of self.old) slot) (memory_of self.old) }
    {
        if !self.is_full(slot)? {
            return Err(Refusal::EmptySlot);
        }
        self.marks[slot] = EMPTY;
        Ok(())
    }
}

impl<'a> FramePool<'a> {
    // Whether a pool of `count` slots of `page` bytes can be made over this memory.
    pub fn check(page: usize, count: usize, bytes: &[u8], marks: &[u8]) -> Result<(), Refusal>
        ensures { result ≡ answer (pool_refusal page count (length bytes.now) (length marks.now)) tt }
    {
        check_sizes(page, count)?;
        if bytes.len() != count * page || marks.len() != count {
            return Err(Refusal::WrongLength);
        }
        Ok(())
    }

    // The pool over this memory, empty whatever the memory held.
    pub fn new(page: usize, count: usize, bytes: &'a mut [u8], marks: &'a mut [u8]) -> FramePool<'a>
        requires { pool_refusal page count (length bytes.old) (length marks.old) ≡ None }
        ensures starts_empty { model_of result ≡ empty_store page count }
        ensures keeps_all_bytes { memory_of result ≡ unmarked bytes.old count }
    {
        marks.fill(EMPTY);
        FramePool { bytes, marks, page }
    }
}
