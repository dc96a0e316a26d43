// What a question is answered (document 01, "The question"; document 02, Point 1), and the notions of the search: types, definitions
// and laws.
#![tactic(auto)]

use table::PLACES;

// The state of a search, document 01's "record of fixed size": a mark for each place (the layer in which it was reached, 0
// for none: an Option of 16 bits takes twice the memory), the places in the order in which they were reached, and the ends of the
// frontier among them. Where a goal was reached, `from` is the place of the frontier that led to it.
#[derive(Drop)]
pub struct State {
    pub mark: [u16; PLACES],
    pub queue: [u16; PLACES],
    pub from: usize,
    pub to: usize,
}

// A part of the facts, and where it is noted that it has been passed.
#[derive(Clone, Copy)]
pub struct Part {
    pub from: usize,
    pub to: usize,
    pub slot: usize,
}
