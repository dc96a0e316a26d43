// Part of the search: the facts of a path put in the order in which they are printed.
#![tactic(auto)]

ghost use Rattle.std.specs.Prelude.{◌≡◌, ◌<◌, drop, length};
ghost use Rattle.std.specs.List.{prefix_len};
ghost use Rattle.question.specs.Order.{Placed, InPrint, chained};

use facts::{Fact, SP};
use terms::is_name;

// An sp fact stands at the place.
fn is_chained(facts: &[Fact], place: u16) -> bool
    ensures { result ≡ chained facts.now place }
{
    facts.get(place as usize).is_some_and(|f| f.predicate == SP)
}

// How many sp facts stand behind the first place.
fn sp_run(facts: &[Fact], path: &[u16]) -> usize
    requires { 0 < length path.now }
    ensures { result ≡ prefix_len (chained facts.now) (drop 1 path.now) }
{
    path[1..]
        .iter()
        .take_while(|place| is_chained(facts, **place))
        .count()
}

// Puts the places of a path in the order in which their facts are printed: a data fact that begins them behind the sp facts. What makes places a
// path's is asked here and in `search_print`, which asks for more, so that no type has it.
pub fn print_order(facts: &[Fact], path: &mut [u16])
    requires { Placed facts.now path.old }
    ensures { InPrint facts.now path.old path.new }
{
    if is_name(facts[path[0] as usize].predicate) {
        let k = sp_run(facts, path);
        path[..=k].rotate_left(1);
    }
}
