// The numbers of the vocabulary (document 02, Point 3: "The five IRIs of the vocabulary become 1 to 5").
#![tactic(auto)]

ghost use Rattle.std.specs.Prelude.{◌≡◌, ◌==◌};
ghost use Rattle.std.specs.List.{list_all, zip};
ghost use Rattle.numbering.specs.Numbering.{same};
ghost use Rattle.numbering.specs.Vocabulary.{word_of};

// The bytes of two tokens agree, as far as both have some.
fn agree(a: &[u8], b: &[u8]) -> bool
    ensures { result ≡ list_all (λ p. p.0 == p.1) (zip a.now b.now) }
{
    a.iter().zip(b.iter()).all(|(x, y)| x == y)
}

// Two tokens have the same bytes. By a chain, not by `==`: so the IRIs stand in the code, where `==` puts them into read-only memory.
fn is_same(a: &[u8], b: &[u8]) -> bool
    ensures { result ≡ same a.now b.now }
{
    a.len() == b.len() && agree(a, b)
}

// The number of a term of the vocabulary, 1 to 5. Five tests and no loop over a table, for the same reason.
pub fn vocabulary_of(token: &[u8]) -> Option<u32>
    ensures { result ≡ word_of token.now }
{
    if is_same(token, b"<http://www.w3.org/2000/01/rdf-schema#subClassOf>") {
        Some(1)
    } else if is_same(
        token,
        b"<http://www.w3.org/2000/01/rdf-schema#subPropertyOf>",
    ) {
        Some(2)
    } else if is_same(token, b"<http://www.w3.org/2000/01/rdf-schema#domain>") {
        Some(3)
    } else if is_same(token, b"<http://www.w3.org/2000/01/rdf-schema#range>") {
        Some(4)
    } else if is_same(token, b"<http://www.w3.org/1999/02/22-rdf-syntax-ns#type>") {
        Some(5)
    } else {
        None
    }
}
