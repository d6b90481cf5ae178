// Taking the least out of a tree.
// Records are indexed by `place as usize`, for the reason that stands in edit.rt.
ghost use Rattle.ordered_map.specs.Tree.{Tree};
ghost use Rattle.ordered_map.specs.Path.{Standing, Lowest, Popped, upward};

use crate::node::Node;
use crate::path::{Path, Step};
use crate::rise::rise;

// The way to the least record, and the record's place.
// That a tree stands in the table is asked at each call: a type for table and root would be made for it, and taken apart at once.
pub fn leftmost<K: Copy>(nodes: &[Node<K>], root: u16) -> (Path, u16)
    requires { (t : Tree K) × Standing nodes.now root t }
    ensures { (t : Tree K) → Standing nodes.now root t → Lowest t (upward result.0) result.1 }
{
    let mut path = Path::new();
    let mut at = root;
    loop {
        let record = nodes[at as usize];
        let Some(left) = record.left else {
            return (path, at);
        };
        path.push(Step {
            place: at,
            left: true,
        });
        at = left;
    }
}

// Takes the least out of the tree at `root`. Returns its place, and the root of the rest.
pub fn pop_least<K: Copy>(nodes: &mut [Node<K>], root: u16) -> (u16, Option<u16>)
    requires { (t : Tree K) × Standing nodes.old root t }
    ensures { (t : Tree K) → Standing nodes.old root t → Popped nodes.old nodes.new result.0 result.1 t }
{
    let (path, place) = leftmost(nodes, root);
    let record = nodes[place as usize];
    let rest = rise(nodes, path, record.right);
    (place, rest)
}
