// The way down to a key.
// Records are indexed by `place as usize`, for the reason that stands in edit.rt.
ghost use Rattle.ordered_map.specs.Table.{Searchable, tree_of};
ghost use Rattle.ordered_map.specs.Path.{Located};

use crate::edit::pick;
use crate::key::Key;
use crate::node::Node;
use crate::path::{Path, Step};
use std::cmp::Ordering;

// Both sides are taken by the same lines, so that the side is no branch to be guessed.
// The way to the key and the key's place, or the way to where the key would stand.
pub fn locate<K: Key>(nodes: &[Node<K>], root: Option<u16>, key: &K) -> Result<(Path, u16), Path>
    requires { Searchable K.Key.cmp nodes.now root }
    ensures { Located K.Key.cmp (tree_of nodes.now root) key.now result }
{
    let mut path = Path::new();
    let mut at = root;
    while let Some(place) = at {
        let record = nodes[place as usize];
        let left = match key.compare(&record.key) {
            Ordering::Less => true,
            Ordering::Equal => return Ok((path, place)),
            Ordering::Greater => false,
        };
        path.push(Step { place, left });
        at = pick(left, record.left, record.right);
    }
    Err(path)
}
