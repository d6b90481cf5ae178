ghost use Rattle.page_store.specs.Stores.{Bytes};

// States that the elements of a slice of bytes are below 256; it does nothing.
pub fn tell_bytes(bytes: &[u8])
    ensures { Bytes bytes.now }
{
    let _ = bytes.is_empty();
}
