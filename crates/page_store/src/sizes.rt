ghost use Rattle.std.specs.Prelude.{◌≡◌};
ghost use Rattle.page_store.specs.Stores.{is_page_size};
ghost use Rattle.page_store.specs.Calls.{answer, sizes_refusal};

use super::Refusal;

// Whether a page may be this long.
pub fn is_page_size(bytes: usize) -> bool
    ensures { result ≡ is_page_size bytes }
{
    matches!(bytes, 64 | 256 | 1024 | 4096)
}

// Refuses a length that no page may have, and then a number of slots that no store may have.
// The two are no struct, here or in the makers: a caller would build one only to hand it over.
pub fn check_sizes(page: usize, count: usize) -> Result<(), Refusal>
    ensures { result ≡ answer (sizes_refusal page count) tt }
{
    if !is_page_size(page) {
        return Err(Refusal::PageSize);
    }
    if !(1..=2048).contains(&count) {
        return Err(Refusal::StoreSize);
    }
    Ok(())
}
