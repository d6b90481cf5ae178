ghost use Rattle.std.specs.Prelude.{◌≡◌, ◌≤◌};
ghost use Rattle.ordered_map.specs.Map.{pairs_in};
ghost use Rattle.map_script.specs.Answers.{answer_to, pairs_after, comparisons_of};

use crate::answer::Answer;
use crate::command::Command;
use ordered_map::OrderedMap;

// Makes the call that a line asks for, and returns its answer. A bad line, which is no command, has none, and leaves the pairs as they are.
pub fn play(map: &mut OrderedMap<'_, u64>, command: Option<Command>) -> Option<Answer>
    ensures answers { result ≡ answer_to map.old.nodes.now map.old.head command }
    ensures leaves { pairs_in map.new.nodes.now map.new.head ≡ pairs_after map.old.nodes.now map.old.head command }
    ensures most { comparisons_of result ≤ 14 }
    ensures table { map.new.nodes.ghost_name ≡ map.old.nodes.ghost_name }
{
    let answer = match command? {
        Command::Enter(key, value) => Answer::Done(map.enter(key, value)),
        Command::Remove(key) => Answer::Done(map.remove(&key)),
        Command::LookUp(key) => {
            let (value, comparisons) = map.look_up(&key);
            Answer::Value { value, comparisons }
        }
        Command::Count => Answer::Pairs(map.count()),
    };
    Some(answer)
}
