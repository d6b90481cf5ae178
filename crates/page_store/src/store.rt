ghost use Rattle.std.specs.Prelude.{◌≡◌};
ghost use Rattle.page_store.specs.Calls.{answer, length_refusal, ask_refusal, Asked, Fetched, Put, Emptied};
ghost use Rattle.page_store.specs.Stores.{Store, Sound, size_of};

use super::Refusal;

// A store of pages: a page size, and slots of which each holds one page or nothing.
pub trait PageStore {
    // what the store holds
    ghost model: { Self → Store };

    // The length of every page, in bytes.
    fn page_size(&self) -> usize
        ensures { result ≡ (model self.now).page };

    // The number of slots.
    fn slot_count(&self) -> usize
        ensures { result ≡ size_of (model self.now) };

    // Refuses what is not exactly one page long.
    fn check_length(&self, bytes: usize) -> Result<(), Refusal>
        ensures { result ≡ answer (length_refusal (model self.now) bytes) tt }
    {
        if bytes != self.page_size() {
            return Err(Refusal::WrongLength);
        }
        Ok(())
    }

    // Refuses the number of no slot.
    fn check_slot(&self, slot: usize) -> Result<(), Refusal>
        ensures { result ≡ answer (ask_refusal (model self.now) slot) tt }
    {
        if slot >= self.slot_count() {
            return Err(Refusal::NoSuchSlot);
        }
        Ok(())
    }

    // Whether a slot holds a page.
    fn is_full(&self, slot: usize) -> Result<bool, Refusal>
        ensures { Asked (model self.now) slot result };

    // Fills a buffer of one page with what a slot holds.
    fn fetch(&self, slot: usize, buffer: &mut [u8]) -> Result<(), Refusal>
        ensures { Fetched (model self.now) slot buffer.old buffer.new result };

    // Makes a slot hold a page, whatever it held before.
    fn put(&mut self, slot: usize, page: &[u8]) -> Result<(), Refusal>
        ensures { Put (model self.old) (model self.new) slot page.now result };

    // Leaves a slot with nothing.
    fn empty(&mut self, slot: usize) -> Result<(), Refusal>
        ensures { Emptied (model self.old) (model self.new) slot result };

    // its limits, which hold at all times
    ghost sound: { (s : Self) → Sound (model s) };
}
