ghost use Rattle.std.specs.Prelude.{◌≡◌, ◌<◌, true, false, ◌||◌, length, replicate, if◌then◌else◌, Some, None, Ok, slice_index_or, slice_set};
ghost use Rattle.std.specs.Option.{unwrap_or};
ghost use Rattle.page_store.specs.Stores.{size_of, slot_of, is_full, with_slot};
ghost use Rattle.page_store.specs.Calls.{answer, after, ask_refusal, fetch_refusal, put_refusal, empty_refusal, Asked, Fetched, Put, Emptied};
ghost use Rattle.zero_layer.specs.Zeros.{zeros, is_zeros};
ghost use Rattle.zero_layer.specs.Layer.{slot_at, Tidy, NoZeroPage};
ghost use Rattle.zero_layer.specs.Limits.{layer_sound};
ghost use Rattle.zero_layer.specs.Meaning.{layer_of, model_of};

use super::ZeroLayer;
use crate::zeros::is_zero;
use page_store::{PageStore, Refusal};

impl<S: PageStore> PageStore for ZeroLayer<S> {
    ghost model = { λ s. model_of S.PageStore.model s };

    ghost sound = { λ s. layer_sound (layer_of S.PageStore.model s) (S.PageStore.sound s.below) };

    fn page_size(&self) -> usize
        ensures store { result ≡ (model_of S.PageStore.model self.now).page }
        ensures that_of_the_store_below { result ≡ (S.PageStore.model self.now.below).page }
    {
        self.below.page_size()
    }

    fn slot_count(&self) -> usize
        ensures store { result ≡ size_of (model_of S.PageStore.model self.now) }
        ensures that_of_the_store_below { result ≡ size_of (S.PageStore.model self.now.below) }
    {
        self.below.slot_count()
    }

    #[tactic(auto, using(crate::proofs::Layers::checked_few))]
    fn is_full(&self, slot: usize) -> Result<bool, Refusal>
        ensures store { Asked (model_of S.PageStore.model self.now) slot result }
        ensures mark_or_store_below_tells { result ≡ answer (ask_refusal (model_of S.PageStore.model self.now) slot) (slice_index_or self.now.marks slot false || is_full (S.PageStore.model self.now.below) slot) }
    {
        self.check_slot(slot)?;
        if self.marks[slot] {
            return Ok(true);
        }
        self.below.is_full(slot)
    }

    #[tactic(auto, using(crate::proofs::Layers::checked_few))]
    fn fetch(&self, slot: usize, buffer: &mut [u8]) -> Result<(), Refusal>
        ensures store { Fetched (model_of S.PageStore.model self.now) slot buffer.old buffer.new result }
        ensures marked_slots_give_zeros { buffer.new ≡ after (fetch_refusal (model_of S.PageStore.model self.now) slot (length buffer.old)) (if slice_index_or self.now.marks slot false then zeros (length buffer.old) else unwrap_or (slot_of (S.PageStore.model self.now.below) slot) buffer.old) buffer.old }
    {
        self.check_length(buffer.len())?;
        self.check_slot(slot)?;
        if self.marks[slot] {
            buffer.fill(0);
            return Ok(());
        }
        self.below.fetch(slot, buffer)
    }

    #[tactic(auto, using(crate::proofs::Layers::checked_few))]
    fn put(&mut self, slot: usize, page: &[u8]) -> Result<(), Refusal>
        ensures store { Put (model_of S.PageStore.model self.old) (model_of S.PageStore.model self.new) slot page.now result }
        ensures zero_pages_are_not_kept_below { S.PageStore.model self.new.below ≡ after (put_refusal (model_of S.PageStore.model self.old) slot (length page.now)) (with_slot (S.PageStore.model self.old.below) slot (if is_zeros page.now then None else Some page.now)) (S.PageStore.model self.old.below) }
        ensures zero_pages_are_marked { self.new.marks ≡ after (put_refusal (model_of S.PageStore.model self.old) slot (length page.now)) (slice_set self.old.marks slot (is_zeros page.now)) self.old.marks }
        ensures marked_slots_stay_empty_below { Tidy (layer_of S.PageStore.model self.old) → Tidy (layer_of S.PageStore.model self.new) }
        ensures no_page_of_zeros_comes_below { NoZeroPage (S.PageStore.model self.old.below) → NoZeroPage (S.PageStore.model self.new.below) }
    {
        self.check_length(page.len())?;
        self.check_slot(slot)?;
        if is_zero(page) {
            // refused if there is nothing below, which is as well
            let _ = self.below.empty(slot);
            self.marks[slot] = true;
            return Ok(());
        }
        self.marks[slot] = false;
        self.below.put(slot, page)
    }

    #[tactic(auto, using(crate::proofs::Layers::checked_few))]
    fn empty(&mut self, slot: usize) -> Result<(), Refusal>
        ensures store { Emptied (model_of S.PageStore.model self.old) (model_of S.PageStore.model self.new) slot result }
        ensures nothing_is_left_below { S.PageStore.model self.new.below ≡ after (empty_refusal (model_of S.PageStore.model self.old) slot) (with_slot (S.PageStore.model self.old.below) slot None) (S.PageStore.model self.old.below) }
        ensures mark_is_cleared { self.new.marks ≡ after (empty_refusal (model_of S.PageStore.model self.old) slot) (slice_set self.old.marks slot false) self.old.marks }
        ensures marked_slots_stay_empty_below { Tidy (layer_of S.PageStore.model self.old) → Tidy (layer_of S.PageStore.model self.new) }
        ensures no_page_of_zeros_comes_below { NoZeroPage (S.PageStore.model self.old.below) → NoZeroPage (S.PageStore.model self.new.below) }
    {
        self.check_slot(slot)?;
        let emptied = self.below.empty(slot);
        if self.marks[slot] {
            self.marks[slot] = false;
            return Ok(());
        }
        emptied
    }
}

impl<S: PageStore> ZeroLayer<S> {
    // The layer over a store, with no mark set.
    pub fn new(below: S) -> ZeroLayer<S>
        ensures no_mark_is_set { result.marks ≡ replicate 2048 false }
        ensures stands_over_the_store_handed_in { result.below ≡ below }
        ensures pages_below_show_through { model_of S.PageStore.model result ≡ S.PageStore.model below }
        ensures marked_slots_are_empty_below { Tidy (layer_of S.PageStore.model result) }
    {
        ZeroLayer {
            below,
            marks: [false; 2048],
        }
    }
}
