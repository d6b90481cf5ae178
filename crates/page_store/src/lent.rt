use super::{PageStore, Refusal};

// A store that is lent: it is the store behind the reference, and hands every call on.
#[derive(Drop)]
pub struct Lent<'a, S: PageStore> {
    pub store: &'a mut S,
}

impl<S: PageStore> PageStore for Lent<'_, S> {
    ghost model = { λ s. S.PageStore.model s.store.now };

    ghost sound = { λ s. S.PageStore.sound s.store.now };

    fn page_size(&self) -> usize {
        self.store.page_size()
    }

    fn slot_count(&self) -> usize {
        self.store.slot_count()
    }

    fn check_length(&self, bytes: usize) -> Result<(), Refusal> {
        self.store.check_length(bytes)
    }

    fn check_slot(&self, slot: usize) -> Result<(), Refusal> {
        self.store.check_slot(slot)
    }

    fn is_full(&self, slot: usize) -> Result<bool, Refusal> {
        self.store.is_full(slot)
    }

    fn fetch(&self, slot: usize, buffer: &mut [u8]) -> Result<(), Refusal> {
        self.store.fetch(slot, buffer)
    }

    fn put(&mut self, slot: usize, page: &[u8]) -> Result<(), Refusal> {
        self.store.put(slot, page)
    }

    fn empty(&mut self, slot: usize) -> Result<(), Refusal> {
        self.store.empty(slot)
    }
}
