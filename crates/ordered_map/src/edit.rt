// Joining and rotating in the table.
// A record that a proof reads is indexed by `place as usize`: `usize::from` is a call, which each such proof would have to undo.
ghost use Rattle.std.specs.Prelude.{◌≡◌, ◌+◌, ◌<◌, ◌≤◌, length, MatchOption, if◌then◌else◌};
ghost use Rattle.ordered_map.specs.Edit.{ht, Joined, Leaning, Made, bond};

use crate::node::Node;
use crate::path::Step;

// The height of the tree at a place: 0 where there is no record.
pub fn height_of<K: Copy>(nodes: &[Node<K>], at: Option<u16>) -> u8
    ensures { result ≡ ht nodes.now at }
{
    at.and_then(|place| nodes.get(usize::from(place)))
        .map_or(0, |record| record.height)
}

// The place at `a`, if the tree there is more than `by` higher than that at `b`.
pub fn higher<K: Copy>(nodes: &[Node<K>], a: Option<u16>, b: Option<u16>, by: u8) -> Option<u16>
    ensures { MatchOption result (ht nodes.now a ≤ ht nodes.now b + by) (λ place. (a ≡ Some place) × (ht nodes.now b + by < ht nodes.now a)) }
{
    a.filter(|_| height_of(nodes, a).saturating_sub(height_of(nodes, b)) > by)
}

// One of two, by a side.
pub fn pick(left: bool, a: Option<u16>, b: Option<u16>) -> Option<u16>
    ensures { result ≡ (if left then a else b) }
{
    if left { a } else { b }
}

// Makes `near` the child on the side that the step goes, and `far` that on the other side.
pub fn join<K: Copy>(nodes: &mut [Node<K>], step: Step, near: Option<u16>, far: Option<u16>)
    requires { (step.place < length nodes.old) × (ht nodes.old near < 255) × (ht nodes.old far < 255) }
    ensures { Joined nodes.old nodes.new step.place step.left near far }
{
    let a = height_of(nodes, near);
    let b = height_of(nodes, far);
    let Step { place, left } = step;
    let old = nodes[place as usize];
    nodes[place as usize] = Node {
        left: pick(left, near, far),
        right: pick(left, far, near),
        height: a.max(b) + 1,
        ..old
    };
}

// Rotates where the child that the step goes to is two higher than that on the other side. Returns the place that comes up.
pub fn lean<K: Copy>(nodes: &mut [Node<K>], step: Step, heavy: u16, other: Option<u16>) -> u16
    requires { Leaning nodes.old step.place step.left heavy other }
    ensures { (l : Leaning nodes.old step.place step.left heavy other) → Made nodes.old nodes.new result (bond step.left step.place l.key l.value l.a l.b) }
{
    let Step { place, left } = step;
    let top = nodes[heavy as usize];
    let outer = pick(left, top.left, top.right);
    let inner = pick(left, top.right, top.left);
    if let Some(up) = higher(nodes, inner, outer, 0) {
        let middle = nodes[up as usize];
        let first = pick(left, middle.left, middle.right);
        let second = pick(left, middle.right, middle.left);
        join(nodes, Step { place: heavy, left }, outer, first);
        join(nodes, step, second, other);
        join(nodes, Step { place: up, left }, Some(heavy), Some(place));
        up
    } else {
        join(nodes, step, inner, other);
        join(nodes, Step { place: heavy, left }, outer, Some(place));
        heavy
    }
}
