// Entering a pair.
// Records are indexed by `place as usize`, for the reason that stands in edit.rt.
ghost use Rattle.ordered_map.specs.Enter.{Headed, Entered};

use crate::head::Head;
use crate::key::Key;
use crate::locate::locate;
use crate::node::Node;
use crate::rise::rise;

// Table and head come apart here, since only the part of the table that serves is lent.
// Enters a pair, and returns the new head; nothing where the key is there or no record is free.
pub fn enter<K: Key>(nodes: &mut [Node<K>], head: Head, key: K, value: u16) -> Option<Head>
    requires { Headed K.Key.cmp nodes.old head }
    ensures { Entered K.Key.cmp nodes.old head key value nodes.new result }
{
    let Err(path) = locate(nodes, head.root, &key) else {
        return None;
    };
    let place = head.free?;
    let record = nodes[place as usize];
    nodes[place as usize] = Node {
        key,
        value,
        left: None,
        right: None,
        height: 1,
    };
    let root = rise(nodes, path, Some(place));
    Some(Head {
        root,
        free: record.left,
        count: head.count + 1,
    })
}
