// The public library: the question, the check, reading, writing and the import as C calls them (document 01, "Panel and program"; document 02,
// Point 3). An answer is one number, whose bits the crate `packing` lays out. The crate `entail_c` hands these functions out to C.
#![tactic(auto)]

ghost use Rattle.facts.specs.Facts.{fact};
ghost use Rattle.acceptance.specs.Check.{Judges};
ghost use Rattle.question.specs.Question.{question, Means};
ghost use Rattle.packing.specs.Packed.{unpacked};
ghost use Rattle.entail.specs.Calls.{QuestionCall, CheckCall, ReadCall, WriteCall, ImportCall};

use facts::Fact;
use packing::pack;

// Puts a question, which may have a gap: limit is document 01's allowance, output its paper.
pub fn factbox_question(
    table: &[u8],
    subject: u32,
    predicate: u32,
    object: u32,
    limit: u32,
    output: &mut [u8],
) -> u64
    ensures call { QuestionCall (question table.now (fact subject predicate object) limit) output.old output.new result }
    ensures meaning { Means (question table.now (fact subject predicate object) limit) output.old output.new (unpacked result) }
{
    let fact = Fact {
        subject,
        predicate,
        object,
    };
    pack(search::question(table, fact, limit, output))
}

// Judges a derivation of the fact from the table.
pub fn factbox_check(
    table: &[u8],
    subject: u32,
    predicate: u32,
    object: u32,
    derivation: &[u8],
) -> u64
    ensures call { CheckCall table.now (fact subject predicate object) derivation.now result }
    ensures meaning { Judges table.now (fact subject predicate object) derivation.now (unpacked result) }
{
    let fact = Fact {
        subject,
        predicate,
        object,
    };
    pack(checker::check(table, fact, derivation))
}

// Reads a table into a row of three numbers a fact.
pub fn factbox_read(table: &[u8], row: &mut [u32]) -> u64
    ensures call { ReadCall table.now row.old row.new result }
{
    pack(reader::read(table, row))
}

// Writes the table of a row's facts.
pub fn factbox_write(row: &[u32], output: &mut [u8]) -> u64
    ensures call { WriteCall row.now output.old output.new result }
{
    pack(writer::write(row, output))
}

// Imports N-Triples as a table.
pub fn factbox_import(text: &[u8], table: &mut [u8]) -> u64
    ensures call { ImportCall text.now table.old table.new result }
{
    pack(importer::import(text, table))
}
