// Part of the search: breadth first over the table's facts, layer by layer, until a goal is reached.
#![tactic(auto)]

ghost use Rattle.std.specs.Prelude.{◌≡◌, ◌<◌};
ghost use Rattle.question.specs.State.{empty, pushed, Left, Seeded, Begun};

use question::State;
use search_links::{ends, follows, starts};
use search_parts::{NOTES, Search};
use std::ops::Range;
use table::PLACES;

// The state with nothing marked.
pub fn blank() -> State
    ensures { result ≡ empty }
{
    State {
        mark: [0; PLACES],
        queue: [0; PLACES],
        from: 0,
        to: 0,
    }
}

// Marks a place with its layer, and queues it.
fn push(s: &mut State, place: usize, layer: usize)
    requires { (place < 1024) × (layer < 65536) × (s.old.to < 1024) }
    ensures { s.new ≡ pushed s.old place layer }
{
    s.mark[place] = layer as u16;
    s.queue[s.to] = place as u16;
    s.to += 1;
}

// The first layer: marks and queues the starts, up to one that is a goal. Says whether one is. The range is taken apart: tried as it is, the
// proof has an iterator's state in place of j.
fn seed(sought: Search, s: &mut State) -> bool
    requires { s.old ≡ empty }
    ensures { Seeded sought.entry.facts.now sought.entry.way sought.entry.asked result s.new }
{
    let Range { start, end } = sought.starting();
    for j in start..end {
        let a = sought.facts[j];
        if starts(sought.way, sought.asked, a) {
            push(s, j, 1);
            if ends(sought.asked, a) {
                return true;
            }
        }
    }
    false
}

// The layers of a search: over the frontier, and from each place of it over the part of the facts that may follow.
// A part is passed once. All passes are left as soon as a goal is reached. The outer pass is no `for`: each layer makes the next frontier.
fn rounds(sought: Search, s: &mut State) -> Option<usize>
    requires { Begun sought.facts.now sought.way sought.asked s.old }
    ensures { Left sought.entry.facts.now sought.entry.way sought.entry.asked result s.new }
{
    let mut layer = 1;
    let mut done = [false; NOTES];
    'passes: {
        while s.from < s.to {
            let end = s.to;
            for q in s.from..end {
                let i = s.queue[q] as usize;
                let a = sought.facts[i];
                if let Some(part) = sought.part_of(a, &done) {
                    for j in part.from..part.to {
                        let b = sought.facts[j];
                        if s.mark[j] == 0 && follows(sought.way, a, b) {
                            push(s, j, layer + 1);
                            if ends(sought.asked, b) {
                                s.from = q;
                                break 'passes Some(layer + 1);
                            }
                        }
                    }
                    done[part.slot] = true;
                }
            }
            s.from = end;
            layer += 1;
        }
        None
    }
}

// The search: the number of facts on a shortest path, if there is a path, and in the state what leads back along it.
// The state is lent, and may hold anything before.
pub fn reach(sought: Search, s: &mut State) -> Option<usize>
    ensures { Left sought.entry.facts.now sought.entry.way sought.entry.asked result s.new }
{
    *s = blank();
    if seed(sought, s) {
        Some(1)
    } else {
        rounds(sought, s)
    }
}
