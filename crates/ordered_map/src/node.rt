// A record of the table. Children are places, since the table is lent and the map uses no heap.
ghost use Rattle.std.specs.Prelude.{◌≡◌};

#[derive(Clone, Copy)]
pub struct Node<K> {
    pub(crate) key: K,
    pub(crate) value: u16,
    pub(crate) left: Option<u16>,
    pub(crate) right: Option<u16>,
    pub(crate) height: u8,
}

impl<K: Copy> Node<K> {
    // A record to make a table of. A new map takes any.
    pub fn blank(key: K) -> Self
        ensures { result.key ≡ key }
    {
        Node {
            key,
            value: 0,
            left: None,
            right: None,
            height: 0,
        }
    }
}
