// The kind of a term (document 01, "Terms and facts"). Only this crate and `terms`, which has the bounds from here, tell terms apart.
#![tactic(auto)]

ghost use Rattle.std.specs.Prelude.{◌≡◌};
ghost use Rattle.facts.specs.Terms.{kind_of, is_no_term};

use facts::Kind;

// The first and last numbers of the kinds.
pub const NAME_FIRST: u32 = 6;

pub const LITERAL_FIRST: u32 = 40000;

pub const BLANK_FIRST: u32 = 60000;

pub const TERM_LAST: u32 = 65535;

// The kind of a number. No `From`: `kind_of` is the name that the definition has, and `Kind::from` would say no more.
#[tactic(auto, unfolding(facts::specs::Terms::kind_of))]
pub fn kind_of(n: u32) -> Kind
    ensures { result ≡ kind_of n }
{
    match n {
        0 => Kind::NoTerm,
        1..NAME_FIRST => Kind::Vocabulary,
        NAME_FIRST..LITERAL_FIRST => Kind::Name,
        LITERAL_FIRST..BLANK_FIRST => Kind::Literal,
        BLANK_FIRST..=TERM_LAST => Kind::BlankNode,
        _ => Kind::Beyond,
    }
}

// 0, or above 16 bits: two kinds, so no `==` says it.
pub fn is_no_term(k: Kind) -> bool
    ensures { result ≡ is_no_term k }
{
    matches!(k, Kind::NoTerm | Kind::Beyond)
}
