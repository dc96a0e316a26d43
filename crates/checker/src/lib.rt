// The check of a derivation (document 01, "Derivation lines and their check"). It knows the rules and the table's meaning, and
// nothing of the search.
#![tactic(auto)]

ghost use Rattle.std.specs.Prelude.{◌≡◌};
ghost use Rattle.facts.specs.Answers.{code_of};
ghost use Rattle.acceptance.specs.Check.{derivation_answer, check_answer, Judges};

use checker_lines::Table;
use checker_pass::check_lines;
use checker_refusals::Derivation;
use derivation_lines::{DERIVATION_BYTES, LINE_BYTES};
use facts::{Answer, Fact, NO_FACT, Refusal, Refused};
use table::PLACES;

// The check of a derivation over a table's facts.
#[tactic(auto, unfolding(acceptance::specs::Check::derivation_answer, table::specs::Tables::sized))]
fn check_derivation(table: Table, fact: Fact, bytes: &[u8]) -> Answer
    ensures { result ≡ derivation_answer table.entry.facts.now fact bytes.now }
{
    let size = bytes.len();
    if (size == 0) | (size % LINE_BYTES != 0) | (DERIVATION_BYTES < size) {
        return Err(Refused::from(Refusal::Form));
    }
    let lines = size / LINE_BYTES;
    check_lines(table, fact, Derivation { bytes, lines })
}

// Judges a derivation of the fact from the table: accepted with the number of its table lines, or the first refusal.
pub fn check(table: &[u8], fact: Fact, derivation: &[u8]) -> Answer
    ensures call { result ≡ check_answer table.now fact derivation.now }
    ensures meaning { Judges table.now fact derivation.now (code_of result) }
{
    let mut facts = [NO_FACT; PLACES];
    let n = reader::load(table, &mut facts)?;
    faults::fault(fact)?;
    let facts = &facts[..n as usize];
    check_derivation(Table { facts }, fact, derivation)
}
