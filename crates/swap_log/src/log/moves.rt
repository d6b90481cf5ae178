ghost use Rattle.std.specs.Prelude.{◌≡◌, ◌+◌, ◌*◌, ◌≤◌, length};
ghost use Rattle.page_store.specs.Memory.{page_at, with_page_at};

// Copies the page at place `from` to place `to`, which is not after it.
pub fn copy_page(bytes: &mut [u8], page: usize, from: usize, to: usize)
    requires order { to ≤ from }
    requires fits { from * page + page ≤ length bytes.old }
    ensures { bytes.new ≡ with_page_at page bytes.old to (page_at page bytes.old from) }
{
    let source = from * page;
    bytes.copy_within(source..source + page, to * page);
}
