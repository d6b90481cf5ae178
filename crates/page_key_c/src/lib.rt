#![tactic(auto)]

ghost use Rattle.std.specs.Prelude.{◌≡◌};
ghost use Rattle.page_key.specs.Fnv.{key_of};

use page_key::page_key;

// The key of a list of bytes, for programs in other languages.
#[unsafe(no_mangle)]
pub extern "C" fn catungleb_page_key(bytes: &[u8]) -> u64
    ensures { result ≡ key_of bytes.now }
{
    page_key(bytes)
}
