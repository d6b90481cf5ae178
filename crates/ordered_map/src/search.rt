// A search in the table.
// Records are indexed by `place as usize`, for the reason that stands in edit.rt.
ghost use Rattle.std.specs.Prelude.{◌≡◌};
ghost use Rattle.ordered_map.specs.Tree.{value_at, steps};
ghost use Rattle.ordered_map.specs.Table.{Searchable, pairs_of, tree_of};

use crate::key::Key;
use crate::node::Node;
use std::cmp::Ordering;

// The value at a key, and how many comparisons of keys that took.
// Not by way of `locate`: a look-up would write down a way that nobody goes back.
pub fn seek<K: Key>(nodes: &[Node<K>], root: Option<u16>, key: &K) -> (Option<u16>, u8)
    requires { Searchable K.Key.cmp nodes.now root }
    ensures value { result.0 ≡ value_at K.Key.cmp (pairs_of nodes.now root) key.now }
    ensures count { result.1 ≡ steps K.Key.cmp (tree_of nodes.now root) key.now }
{
    let mut at = root;
    let mut count = 0u8;
    while let Some(place) = at {
        let record = nodes[place as usize];
        count += 1;
        match key.compare(&record.key) {
            Ordering::Less => at = record.left,
            Ordering::Equal => return (Some(record.value), count),
            Ordering::Greater => at = record.right,
        }
    }
    (None, count)
}
