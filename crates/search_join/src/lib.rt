// Part of the search: a fact's table line, and the rule line that joins the fact to the result so far.
#![tactic(auto)]

ghost use Rattle.std.specs.Prelude.{◌≡◌, [], ◌∷◌, ◌≤◌, ◌<◌, length};
ghost use Rattle.columns.specs.Lines.{Below, over};
ghost use Rattle.facts.specs.Facts.{fact};
ghost use Rattle.table.specs.Tables.{terms};
ghost use Rattle.rules.specs.Derivations.{derivation_line};
ghost use Rattle.rules.specs.Printed.{join};
ghost use Rattle.derivation.specs.Bytes.{derivation_bytes};

use derivation_lines::{LINE_BYTES, put_line};
use facts::{DOM, Fact, RANGE, SC, SP, TYPE};
use rules::Line;
use terms::is_name;

// A derivation line.
fn line_of(rule: u32, first: u32, second: u32, subject: u32, predicate: u32, object: u32) -> Line
    ensures { result ≡ derivation_line rule first second (fact subject predicate object) }
{
    Line {
        rule,
        first,
        second,
        fact: Fact {
            subject,
            predicate,
            object,
        },
    }
}

// A table line.
pub fn table_line(fact: Fact) -> Line
    ensures { result ≡ derivation_line 0 0 0 fact }
{
    Line {
        rule: 0,
        first: 0,
        second: 0,
        fact,
    }
}

// The rule line that joins f, on line i + 1, to the result so far, c on line i. The premises stand in the order in which the
// rule writes them.
#[tactic(auto, unfolding(rules::specs::Printed::join))]
fn join_line(c: Fact, i: u32, f: Fact) -> Line
    requires { i < 4096 }
    ensures { result ≡ join c i f }
{
    let x = c.subject;
    let y = c.object;
    let o = f.object;
    match f.predicate {
        p if is_name(p) => line_of(2, i, i + 1, f.subject, y, o),
        SP => line_of(1, i, i + 1, x, SP, o),
        DOM => line_of(5, i + 1, i, x, TYPE, o),
        RANGE => line_of(6, i + 1, i, y, TYPE, o),
        _ if c.predicate == SC => line_of(3, i, i + 1, x, SC, o),
        _ => line_of(4, i + 1, i, x, TYPE, o),
    }
}

// Writes f on a table line, and behind it the rule line that joins f to the result so far, c on line i. Gives the new result.
pub fn put_joined(c: Fact, i: u32, f: Fact, out: &mut [u8]) -> Fact
    requires { (i < 4096) × (62 ≤ length out.old) × Below (terms c) × Below (terms f) }
    ensures result { result ≡ (join c i f).fact }
    ensures lines { out.new ≡ over (derivation_bytes (derivation_line 0 0 0 f ∷ join c i f ∷ [])) out.old }
{
    let first = table_line(f);
    put_line(first, out);
    let second = join_line(c, i, f);
    put_line(second, &mut out[LINE_BYTES..]);
    second.fact
}
