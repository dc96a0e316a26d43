// The refusals that the lines of an input earn (document 02, Point 3): 13 and 14 of a line, then 5 and 12 of a statement's fact.
#![tactic(auto)]

ghost use Rattle.std.specs.Prelude.{◌≡◌, ◌≤◌, ◌<◌, length, Some, Ok, Err, MatchResult};
ghost use Rattle.facts.specs.Results.{Sound, Faulty};
ghost use Rattle.imports.specs.Results.{Clear};
ghost use Rattle.ntriples.specs.Lexed.{line_of};
ghost use Rattle.ntriples.specs.Tokens.{spanned};
ghost use Rattle.imports.specs.Lines.{lines_of, said};
ghost use Rattle.imports.specs.Import.{line_refusal, fact_refusal, found_on, or_else, judged};
ghost use Rattle.imports.specs.Samples.{sample_of, sample_fact};

use byte_runs::byte_at;
use facts::{Fact, Refusal, Refused, Verdict};
use faults::fault;
use imports::Finding;
use input_lines::lines;
use line_parser::parse;
use ntriples::{QUOTE, Span, Triple};
use numbering::{FIRST_LITERAL, FIRST_NAME};
use vocabulary::vocabulary_of;

// The vocabulary's own number of a line's token, or the first of the token's kind.
#[tactic(auto, unfolding(imports::specs::Samples::sample_of, numbering::specs::Numbering::is_literal))]
fn sample(line: &[u8], token: Span) -> u32
    requires { (token.from ≤ token.to) × (token.to ≤ length line.now) }
    ensures { result ≡ sample_of (spanned line.now token) }
{
    let token = &line[token.from..token.to];
    let first = if byte_at(token, 0) == QUOTE {
        FIRST_LITERAL
    } else {
        FIRST_NAME
    };
    vocabulary_of(token).unwrap_or(first)
}

// What the fact of a line's statement earns. Not inlined, so that a line that says nothing is passed by quickly.
#[inline(never)]
fn statement_fault(line: &[u8], statement: Triple) -> Verdict
    requires { line_of line.now ≡ Ok (Some statement) }
    ensures { result ≡ fact_refusal sample_fact (said line.now) }
{
    fault(Fact {
        subject: sample(line, statement.subject),
        predicate: sample(line, statement.predicate),
        object: sample(line, statement.object),
    })
}

// What the fact of a line earns, where the line is in the subset; one that says nothing earns nothing.
#[tactic(auto, unfolding(imports::specs::Import::line_refusal, imports::specs::Import::fact_refusal, imports::specs::Lines::said_by))]
fn line_fault(line: &[u8]) -> Result<Verdict, Refusal>
    ensures { MatchResult result (λ v. (line_refusal (line_of line.now) ≡ Sound) × (v ≡ fact_refusal sample_fact (said line.now))) (λ r. line_refusal (line_of line.now) ≡ Faulty r) }
{
    match parse(line)? {
        None => Ok(Ok(())),
        Some(statement) => Ok(statement_fault(line, statement)),
    }
}

// What is held, or else a verdict on line i, counted from 0.
#[tactic(auto, unfolding(imports::specs::Import::or_else, imports::specs::Import::found_on))]
fn first(held: Finding, v: Verdict, i: usize) -> Finding
    requires { i < 65536 }
    ensures { result ≡ or_else held (found_on v i Clear) }
{
    held?;
    v.map_err(|refusal| Refused::on_line(refusal, i))
}

// The first 13 or 14 of an input of at most 65,536 bytes, or else its first 5 or 12.
pub fn judge(input: &[u8]) -> Finding
    requires { length input.now ≤ 65536 }
    ensures { result ≡ judged (lines_of input.now) }
{
    let mut held = Ok(());
    for (i, line) in lines(input).enumerate() {
        match line_fault(line) {
            Ok(Ok(())) => {}
            Ok(v) => held = first(held, v, i),
            Err(refusal) => return Err(Refused::on_line(refusal, i)),
        }
    }
    held
}
