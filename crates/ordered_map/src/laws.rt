// What holds over several calls.
ghost use Rattle.std.specs.Prelude.{◌≡◌, ◌<◌, length, Some};

use crate::key::Key;
use crate::map::OrderedMap;
use crate::node::Node;

// Enters a pair into a new map, puts the map down to its head, so that the table is free again, takes the map up and looks the key up.
pub fn finds_after_putting_down<K: Key>(table: &mut [Node<K>], key: K, value: u16) -> Option<u16>
    ensures { 0 < length table.old → result ≡ Some value }
{
    let mut map = OrderedMap::new(table);
    let _entered = map.enter(key, value);
    let head = map.head();
    let again = OrderedMap::resume(table, head);
    let (found, _count) = again.look_up(&key);
    found
}
