//! Literals.

ghost use Rattle.std.specs.Prelude.{◌≡◌, false};
ghost use Rattle.bohm_types.specs.Shape.{term_of};
ghost use Rattle.bohm_types.specs.Sound.{IsTerm};
ghost use Rattle.bohm_types.specs.Term.{Lit};

use bohm_types::GREATEST_LITERAL;
use std::marker::Model;

/// A number of at most 2^63 - 1 and its sign; 0 has no minus, so each has one text. Contracts see
/// it as a term.
#[derive(Debug, Drop)]
pub struct Literal {
    minus: bool,
    number: u64,
}

impl Model for Literal {
    ghost use Rattle.std.specs.Prelude.{Bool};
    ghost use Rattle.bohm_types.specs.Sound.{IsTerm};
    ghost use Rattle.bohm_types.specs.Term.{Atom, Lit};

    ghost Value = { Bool × Atom };

    ghost view = { λ l. (l.minus, Lit l.number) };

    ghost invariant = { λ l. IsTerm (l.minus, Lit l.number) };
}

impl Literal {
    /// The literal of this number and sign, if there is one: none is above 2^63 - 1, and 0 has no
    /// minus.
    #[inline(always)]
    #[tactic(auto, unfolding(bohm_types::specs::Shape::term_of))]
    pub fn new(minus: bool, number: u64) -> Option<Literal>
        ensures { result ≡ term_of minus (Lit number) }
    {
        if number > GREATEST_LITERAL || minus && number == 0 {
            None
        } else {
            Some(Literal { minus, number })
        }
    }

    /// Whether it is subtracted, and its number.
    #[inline(always)]
    pub(crate) fn parts(self) -> (bool, u64)
        ensures same { self ≡ (result.0, Lit result.1) }
        ensures sound { IsTerm (result.0, Lit result.1) }
    {
        (self.minus, self.number)
    }
}

/// A 32-bit number, which is added.
impl From<u32> for Literal {
    ghost use Rattle.std.specs.Prelude.{◌≡◌, false};
    ghost use Rattle.bohm_types.specs.Term.{Lit};

    ghost from_gives = { λ number literal. literal ≡ (false, Lit number) };

    fn from(number: u32) -> Literal {
        Literal {
            minus: false,
            number: u64::from(number),
        }
    }
}
