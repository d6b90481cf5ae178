// Taking a pair out.
// Records are indexed by `place as usize`, for the reason that stands in edit.rt.
ghost use Rattle.ordered_map.specs.Enter.{Headed, Taken};

use crate::excise::excise;
use crate::head::Head;
use crate::key::Key;
use crate::locate::locate;
use crate::node::Node;
use crate::rise::rise;

// Table and head come apart here, as in `enter`.
// Takes a key out, and returns the new head; nothing where the key is not there.
pub fn take_out<K: Key>(nodes: &mut [Node<K>], head: Head, key: &K) -> Option<Head>
    requires { Headed K.Key.cmp nodes.old head }
    ensures { Taken K.Key.cmp nodes.old head key.now nodes.new result }
{
    let Ok((path, place)) = locate(nodes, head.root, key) else {
        return None;
    };
    let (child, freed) = excise(nodes, place);
    let root = rise(nodes, path, child);
    nodes[freed as usize].left = head.free;
    Some(Head {
        root,
        free: Some(freed),
        count: head.count - 1,
    })
}
