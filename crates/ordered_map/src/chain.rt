// A table of free records.
ghost use Rattle.std.specs.Prelude.{◌≡◌, ◌≤◌, length};
ghost use Rattle.ordered_map.specs.Table.{Linked};

use crate::node::Node;

// Links all records into one chain of free places, and returns the first.
pub fn chain<K: Copy>(nodes: &mut [Node<K>]) -> Option<u16>
    requires { length nodes.old ≤ 1024 }
    ensures { Linked nodes.new 0 result × (length nodes.new ≡ length nodes.old) }
{
    let mut free = None;
    for i in (0..nodes.len()).rev() {
        nodes[i].left = free;
        free = Some(i as u16);
    }
    free
}
