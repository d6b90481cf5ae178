// Taking the root out of a tree.
// Records are indexed by `place as usize`, for the reason that stands in edit.rt.
ghost use Rattle.std.specs.Prelude.{ℕ};
ghost use Rattle.ordered_map.specs.Tree.{Tree, node};
ghost use Rattle.ordered_map.specs.Path.{Standing, Excised};

use crate::least::pop_least;
use crate::node::Node;
use crate::path::Step;
use crate::rise::mend;

// Asks that the tree stands in the table, as `leftmost` does.
// Takes the pair at `place` out of the tree there. Returns the root of the rest, and the place that no longer serves.
pub fn excise<K: Copy>(nodes: &mut [Node<K>], place: u16) -> (Option<u16>, u16)
    requires { (k : K) × (v : ℕ) × (l : Tree K) × (r : Tree K) × Standing nodes.old place (node place k v l r) }
    ensures { (k : K) (v : ℕ) (l r : Tree K) → Standing nodes.old place (node place k v l r) → Excised nodes.old nodes.new result.0 result.1 place k v l r }
{
    let old = nodes[place as usize];
    let Some(right) = old.right else {
        return (old.left, place);
    };
    let (least, rest) = pop_least(nodes, right);
    let from = nodes[least as usize];
    nodes[place as usize] = Node {
        key: from.key,
        value: from.value,
        ..old
    };
    let top = mend(nodes, Step { place, left: false }, rest);
    (Some(top), least)
}
