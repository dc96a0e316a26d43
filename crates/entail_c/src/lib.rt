// The calls as C links them (document 01, "Panel and program"; document 02, Point 3): each hands its arguments to the function of its name in
// `entail`, with the same clauses: a static library is no part of other crates, and theorems speak of `entail`. A slice is a pointer and then a length.
#![tactic(auto)]

ghost use Rattle.facts.specs.Facts.{fact};
ghost use Rattle.acceptance.specs.Check.{Judges};
ghost use Rattle.question.specs.Question.{question, Means};
ghost use Rattle.packing.specs.Packed.{unpacked};
ghost use Rattle.entail.specs.Calls.{QuestionCall, CheckCall, ReadCall, WriteCall, ImportCall};

// Puts a question, which may have a gap: limit is document 01's allowance, output its paper.
#[unsafe(no_mangle)]
pub extern "C" fn factbox_question(
    table: &[u8],
    subject: u32,
    predicate: u32,
    object: u32,
    limit: u32,
    output: &mut [u8],
) -> u64
    ensures call { QuestionCall (question table.now (fact subject predicate object) limit) output.old output.new result }
    ensures meaning { Means (question table.now (fact subject predicate object) limit) output.old output.new (unpacked result) }
{
    entail::factbox_question(table, subject, predicate, object, limit, output)
}

// Judges a derivation of the fact from the table.
#[unsafe(no_mangle)]
pub extern "C" fn factbox_check(
    table: &[u8],
    subject: u32,
    predicate: u32,
    object: u32,
    derivation: &[u8],
) -> u64
    ensures call { CheckCall table.now (fact subject predicate object) derivation.now result }
    ensures meaning { Judges table.now (fact subject predicate object) derivation.now (unpacked result) }
{
    entail::factbox_check(table, subject, predicate, object, derivation)
}

// Reads a table into a row of three numbers a fact.
#[unsafe(no_mangle)]
pub extern "C" fn factbox_read(table: &[u8], row: &mut [u32]) -> u64
    ensures call { ReadCall table.now row.old row.new result }
{
    entail::factbox_read(table, row)
}

// Writes the table of a row's facts.
#[unsafe(no_mangle)]
pub extern "C" fn factbox_write(row: &[u32], output: &mut [u8]) -> u64
    ensures call { WriteCall row.now output.old output.new result }
{
    entail::factbox_write(row, output)
}

// Imports N-Triples as a table.
#[unsafe(no_mangle)]
pub extern "C" fn factbox_import(text: &[u8], table: &mut [u8]) -> u64
    ensures call { ImportCall text.now table.old table.new result }
{
    entail::factbox_import(text, table)
}
