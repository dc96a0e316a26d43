// Part of the search: the ways by domain and by range, and the shorter of the two.
#![tactic(auto)]

ghost use Rattle.std.specs.Prelude.{◌≤◌, length};
ghost use Rattle.question.specs.Row.{Sorted};
ghost use Rattle.question.specs.Answer.{Given, FindsBy, Finds};

use facts::{DOM, Fact, RANGE, SP, TYPE};
use question::State;
use search_back::{leads_into_subject, trace};
use search_layers::{blank, reach};
use search_parts::Search;
use terms::is_gap;

// What one search found, with the places of its path.
fn answer(sought: Search, found: Option<usize>, s: &State, path: &mut [u16]) -> Option<usize>
    requires { Given sought.facts.now sought.way sought.asked found s.now (length path.old) }
    ensures { FindsBy sought.entry.facts.now sought.entry.way sought.entry.asked found path.old path.new result }
{
    let f = found?;
    trace(sought, f, s, path);
    Some(f)
}

// The number of facts on the chosen path for t, if there is a path, and its places. For a type two searches: the way by range
// where it is strictly shorter, and else the way by dom. A way by range that is not also one by dom begins with a data fact
// whose object is the subject, so without one the search by dom is enough; a gap stands for any object.
#[tactic(auto, using(question::proofs::Whole::sorted_rising))]
pub fn shortest(facts: &[Fact], t: Fact, path: &mut [u16]) -> Option<usize>
    requires { Sorted facts.now × (length facts.now ≤ length path.old) }
    ensures { Finds facts.now t path.old path.new result }
{
    if t.predicate != TYPE {
        let sp = Search {
            facts,
            way: SP,
            asked: t,
        };
        let mut marks = blank();
        let by_sp = reach(sp, &mut marks);
        return answer(sp, by_sp, &marks, path);
    }
    let dom = Search {
        facts,
        way: DOM,
        asked: t,
    };
    let mut marks = blank();
    let by_dom = reach(dom, &mut marks);
    if !is_gap(t.subject) && !leads_into_subject(facts, t) {
        return answer(dom, by_dom, &marks, path);
    }
    let range = Search {
        facts,
        way: RANGE,
        asked: t,
    };
    let mut other = blank();
    let by_range = reach(range, &mut other);
    if by_range.is_some_and(|x| by_dom.is_none_or(|y| x < y)) {
        return answer(range, by_range, &other, path);
    }
    answer(dom, by_dom, &marks, path)
}
