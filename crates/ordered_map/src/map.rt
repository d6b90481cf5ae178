// The map: a table that is lent to it, and its head. It uses the table's first 1,024 records.
ghost use Rattle.std.specs.Prelude.{◌≡◌, ℕ, ◌+◌, ◌<◌, ◌≤◌, min, [], length};
ghost use Rattle.std.specs.Coded.{Coded-set};
ghost use Rattle.ordered_map.specs.Tree.{value_at, steps, least};
ghost use Rattle.ordered_map.specs.Map.{Sound, pairs_in, tree_in, AfterEnter, AfterRemove};
ghost use Rattle.ordered_map.specs.Unique.{Sound-prop};

use crate::chain::chain;
use crate::enter::enter;
use crate::head::Head;
use crate::key::Key;
use crate::node::Node;
use crate::search::seek;
use crate::take::take_out;

// How many records serve at most.
const ROOM: usize = 1024;

// How many of these records serve.
fn room_in(records: usize) -> usize
    ensures { result ≡ min records 1024 }
{
    records.min(ROOM)
}

// The clauses `long` and `table` stand at several methods: they compare before with after, or two owners' names, which no ghost field can.
#[derive(Drop)]
pub struct OrderedMap<'a, K: Key> {
    nodes: &'a mut [Node<K>],
    head: Head,
    pub ghost sound: { Sound K.Key.cmp nodes.now head } by { Sound-prop (Coded-set K.code) K.Key.cmp nodes.now head },
}

impl<'a, K: Key> OrderedMap<'a, K> {
    // An empty map, whatever the table held before.
    pub fn new(nodes: &'a mut [Node<K>]) -> Self
        ensures empty { pairs_in result.nodes.now result.head ≡ [] }
        ensures long { length result.nodes.now ≡ length nodes.old }
        ensures table { result.nodes.ghost_name ≡ nodes.entry.ghost_name }
    {
        let room = room_in(nodes.len());
        let free = chain(&mut nodes[..room]);
        OrderedMap {
            nodes,
            head: Head {
                root: None,
                free,
                count: 0,
            },
        }
    }

    // The map that was put down to its head, over the same table.
    pub fn resume(nodes: &'a mut [Node<K>], head: Head) -> Self
        requires { Sound K.Key.cmp nodes.old head }
        ensures same { (result.nodes.now ≡ nodes.old) × (result.head ≡ head) }
        ensures table { result.nodes.ghost_name ≡ nodes.entry.ghost_name }
    {
        OrderedMap { nodes, head }
    }

    // The head, to put the map down to.
    pub fn head(&self) -> Head
        ensures sound { Sound K.Key.cmp self.now.nodes.now result }
        ensures same { result ≡ self.now.head }
    {
        self.head
    }

    // The number of pairs.
    pub fn count(&self) -> u16
        ensures { result ≡ length (pairs_in self.now.nodes.now self.now.head) }
    {
        self.head.count
    }

    // The value under a key, and how many comparisons of keys that took.
    pub fn look_up(&self, key: &K) -> (Option<u16>, u8)
        ensures value { result.0 ≡ value_at K.Key.cmp (pairs_in self.now.nodes.now self.now.head) key.now }
        ensures count { result.1 ≡ steps K.Key.cmp (tree_in self.now.nodes.now self.now.head) key.now }
        ensures bound { (h : ℕ) → length (pairs_in self.now.nodes.now self.now.head) < least (h + 1) → result.1 ≤ h }
        ensures most { result.1 ≤ 14 }
    {
        let room = room_in(self.nodes.len());
        seek(&self.nodes[..room], self.head.root, key)
    }

    // Enters a pair, and tells whether it did, as a set's insert does. False, and nothing changed, where the key is present or there is no room.
    pub fn enter(&mut self, key: K, value: u16) -> bool
        ensures cases { AfterEnter K.Key.cmp self.old.nodes.now self.old.head key value self.new.nodes.now self.new.head result }
        ensures long { length self.new.nodes.now ≡ length self.old.nodes.now }
        ensures table { self.new.nodes.ghost_name ≡ self.old.nodes.ghost_name }
    {
        let room = room_in(self.nodes.len());
        match enter(&mut self.nodes[..room], self.head, key, value) {
            Some(head) => {
                self.head = head;
                true
            }
            None => false,
        }
    }

    // The lines are those of `enter` but for the call: what both do with its answer is less than a helper's contract would be.
    // Removes a key, and tells whether it did, as a set's remove does. False, and nothing changed, where the key is absent.
    pub fn remove(&mut self, key: &K) -> bool
        ensures cases { AfterRemove K.Key.cmp self.old.nodes.now self.old.head key.now self.new.nodes.now self.new.head result }
        ensures long { length self.new.nodes.now ≡ length self.old.nodes.now }
        ensures table { self.new.nodes.ghost_name ≡ self.old.nodes.ghost_name }
    {
        let room = room_in(self.nodes.len());
        match take_out(&mut self.nodes[..room], self.head, key) {
            Some(head) => {
                self.head = head;
                true
            }
            None => false,
        }
    }
}
