// Putting a changed tree back under its path.
// Records are indexed by `place as usize`, for the reason that stands in edit.rt.
ghost use Rattle.std.specs.Prelude.{ℕ, List};
ghost use Rattle.ordered_map.specs.Edit.{bond};
ghost use Rattle.ordered_map.specs.Path.{Mendable, Mended, Rising, Risen, Frame, plug, tall, upward};
ghost use Rattle.ordered_map.specs.Tree.{Tree};

use crate::edit::{higher, join, lean, pick};
use crate::node::Node;
use crate::path::{Path, Step};

// Makes `near` the child on the side that the step goes, and balances there. Returns the place that comes up.
pub fn mend<K: Copy>(nodes: &mut [Node<K>], step: Step, near: Option<u16>) -> u16
    requires { Mendable nodes.old step.place step.left near }
    ensures { (m : Mendable nodes.old step.place step.left near) → Mended nodes.old nodes.new result (bond step.left step.place m.key m.value m.a m.b) m.a m.b }
{
    let old = nodes[step.place as usize];
    let far = pick(step.left, old.right, old.left);
    if let Some(heavy) = higher(nodes, near, far, 1) {
        lean(nodes, step, heavy, far)
    } else if let Some(heavy) = higher(nodes, far, near, 1) {
        let turned = Step {
            left: !step.left,
            ..step
        };
        lean(nodes, turned, heavy, near)
    } else {
        join(nodes, step, near, far);
        step.place
    }
}

// Puts the tree at `child` at the end of a path, and balances up to the root. Returns the root.
pub fn rise<K: Copy>(nodes: &mut [Node<K>], mut path: Path, child: Option<u16>) -> Option<u16>
    requires { (fs : List (Frame K)) × (t : Tree K) × (h : ℕ) × Rising nodes.old (upward path) child fs t h }
    ensures { (fs : List (Frame K)) (t : Tree K) (h : ℕ) → Rising nodes.old (upward path) child fs t h → Risen nodes.old nodes.new result (plug fs t) (tall h fs) }
{
    let mut at = child;
    while let Some(step) = path.pop() {
        at = Some(mend(nodes, step, at));
    }
    at
}
