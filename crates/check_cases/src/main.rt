// Runs the check on cases and prints the number, place and count of each answer. A case is a line of five fields (the bytes of its
// table, the bytes of its derivation, and the fact put: subject, predicate, object), then those bytes.
#![tactic(auto)]

ghost use Rattle.std.specs.Prelude.{◌≡◌, ◌+◌, [], ◌∷◌, get_or, None, Some};
ghost use Rattle.case_runner.specs.Cases.{Ran};

use case_runner::Cases;
use facts::Fact;
use std::io;
use std::io::Stdout;

// The most bytes of all cases.
const INPUT_BYTES: usize = 360000;

// Where the answers are printed.
#[derive(Drop)]
struct Checks {
    to: Stdout,
}

impl Cases<5> for Checks {
    ghost behind = { λ ns. Some (get_or ns 0 0 + get_or ns 1 0) };

    fn bytes_behind(&self, numbers: [u32; 5]) -> Option<usize>
        ensures { result ≡ Some (get_or numbers 0 0 + get_or numbers 1 0) }
    {
        let [table, derivation, ..] = numbers;
        Some(table as usize + derivation as usize)
    }

    fn run(&mut self, numbers: [u32; 5], bytes: &[u8])
        ensures { Ran None None ((numbers, bytes.now) ∷ []) }
    {
        let [table, _, subject, predicate, object] = numbers;
        let Some((table, derivation)) = bytes.split_at_checked(table as usize) else {
            return;
        };
        let fact = Fact {
            subject,
            predicate,
            object,
        };
        let code = codes::code_of(checker::check(table, fact, derivation));
        let _ = case_runner::print_line(&mut self.to, [code.number, code.place, code.count]);
    }
}

// Reads the cases and runs them.
fn main(rt: HostRuntime) -> io::Result<()> {
    let mut checks = Checks { to: rt.stdout() };
    case_runner::read_and_run(&mut rt.stdin(), &mut [0u8; INPUT_BYTES], &mut checks)
}
