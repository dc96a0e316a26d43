// Numbers for tokens, in the order of their first appearance (document 02, Point 3).
#![tactic(auto)]

ghost use Rattle.std.specs.Prelude.{◌≡◌, ◌+◌, ◌*◌, ◌≤◌, ◌<◌, length, reverse};
ghost use Rattle.std.specs.Ordering.{nat_cmp};
ghost use Rattle.std.specs.Cmp.Lexicographic.{slice_cmp};
ghost use Rattle.numbering.specs.Weights.{token_cmp};
ghost use Rattle.numbering.specs.Index.{entry, token_of, found, Ordered, Sought, entries, next_of, Enters};

use insertion::insert;
use ntriples::{QUOTE, Span};
use numbering::{Counts, FIRST_LITERAL, FIRST_NAME};
use std::cmp::Ordering;

// An entry of the index in one number: bits 0 to 15 the token's number, 16 to 32 where it ends in the input, 33 on where it begins.
const END: u64 = 65536;

const END_RANGE: u64 = 131072;

const BEGIN: u64 = 8589934592;

// The order of two tokens of one length: the bytes that differ last decide. By an index, for speed: with the library's order of two iterators
// from behind, and `then_with` below, a typical import takes 1.31 times the instructions, and one of IRIs that differ in their first bytes 1.97 times.
fn compare_last(a: &[u8], b: &[u8]) -> Ordering
    requires { length a.now ≡ length b.now }
    ensures { result ≡ slice_cmp nat_cmp (reverse a.now) (reverse b.now) }
{
    for i in (0..a.len()).rev() {
        if a[i] != b[i] {
            return a[i].cmp(&b[i]);
        }
    }
    Ordering::Equal
}

// The order of two tokens: the shorter comes first, and of two as long the bytes that differ last decide.
fn compare(a: &[u8], b: &[u8]) -> Ordering
    ensures { result ≡ token_cmp a.now b.now }
{
    match a.len().cmp(&b.len()) {
        Ordering::Equal => compare_last(a, b),
        unequal => unequal,
    }
}

// The token of an entry, and an empty one where a number names no part of the input.
fn token_of(input: &[u8], v: u64) -> &[u8]
    ensures { result.now ≡ found input.now v }
{
    let from = (v / BEGIN) as usize;
    let to = (v / END % END_RANGE) as usize;
    if from <= to && to <= input.len() {
        &input[from..to]
    } else {
        &[]
    }
}

// The number that comes next, by the first byte of the token that gets it.
fn next(counts: &mut Counts, first: u8) -> u32
    requires { entries counts.old < 4096 }
    ensures { (result ≡ (next_of counts.old first).0) × (counts.new ≡ (next_of counts.old first).1) }
{
    if first == QUOTE {
        let number = FIRST_LITERAL + counts.literals;
        counts.literals += 1;
        number
    } else {
        let number = FIRST_NAME + counts.names;
        counts.names += 1;
        number
    }
}

// The entry of a token that stands at a place of the input. No `From`: a token and its number are no one type, and not all of them fit.
#[tactic(auto, unfolding(numbering::specs::Index::entry))]
fn pack(token: Span, number: u32) -> u64
    requires { (token.from ≤ 65536) × (token.to ≤ 65536) × (number < 65536) }
    ensures { result ≡ entry token.from token.to number }
{
    (token.from as u64 * END_RANGE + token.to as u64) * END + number as u64
}

// Looks a token up among entries: its number, or else the place where its entry belongs.
fn look_up(input: &[u8], items: &[u64], token: &[u8]) -> Result<u32, usize>
    requires { Ordered input.now items.now (length items.now) }
    ensures { Sought input.now items.now (length items.now) token.now result }
{
    match items.binary_search_by(|v| compare(token_of(input, *v), token)) {
        Ok(k) => Ok((items[k] % END) as u32),
        Err(k) => Err(k),
    }
}

// The tokens of an input that have a number: their entries, in the order of the tokens, in the front of a lent row: memory is of fixed size, so no
// map.
#[derive(Drop)]
pub struct Index<'a> {
    pub input: &'a [u8],
    pub items: &'a mut [u64],
    pub counts: Counts,
    pub ghost few: { length input.now ≤ 65536 },
    pub ghost most: { length items.now ≤ 4096 },
    pub ghost ordered: { Ordered input.now items.now (entries counts) },
}

impl<'a> Index<'a> {
    // An index with no entry.
    pub fn new(input: &'a [u8], items: &'a mut [u64]) -> Index<'a>
        requires { (length input.now ≤ 65536) × (length items.old ≤ 4096) }
        ensures same_reference { (result.input ≡ input.entry) × (result.items.ghost_name ≡ items.entry.ghost_name) }
        ensures empty { (result.items.now ≡ items.old) × (result.counts ≡ record { names = 0; literals = 0 }) }
    {
        Index {
            input,
            items,
            counts: Counts {
                names: 0,
                literals: 0,
            },
        }
    }

    // How many tokens have a number.
    fn len(&self) -> usize
        ensures { result ≡ entries self.now.counts }
    {
        (self.counts.names + self.counts.literals) as usize
    }

    // Looks a token up: its number, or else the place where its entry belongs.
    fn find(&self, token: &[u8]) -> Result<u32, usize>
        ensures { Sought self.now.input.now self.now.items.now (entries self.now.counts) token.now result }
    {
        look_up(self.input, &self.items[..self.len()], token)
    }

    // The number of the token that stands at a place of the input: the one that it has, or else the next, and then the index has its entry.
    pub fn number(&mut self, token: Span) -> u32
        requires { (token.from < token.to) × (token.to ≤ length self.old.input.now) × (entries self.old.counts < length self.old.items.now) }
        ensures same_reference { (self.new.input ≡ self.old.input) × (self.new.items.ghost_name ≡ self.old.items.ghost_name) }
        ensures same_length { length self.new.items.now ≡ length self.old.items.now }
        ensures enters { Enters self.old.input.now token.from token.to self.old.items.now self.new.items.now self.old.counts self.new.counts result }
    {
        let input = self.input;
        match self.find(&input[token.from..token.to]) {
            Ok(number) => number,
            Err(at) => {
                let n = self.len();
                let mut counts = self.counts;
                let number = next(&mut counts, input[token.from]);
                insert(self.items, n, at, pack(token, number));
                self.counts = counts;
                number
            }
        }
    }
}
