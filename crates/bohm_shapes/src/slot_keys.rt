//! The keys of a call.

ghost use Rattle.std.specs.Prelude.{◌≡◌, ◌<◌, Some, length, slice_get};
ghost use Rattle.std.specs.Prelude.{◌==◌};
ghost use Rattle.std.specs.List.{IsDistinct, list_any};
ghost use Rattle.std.specs.Str.{bytes_eq};
ghost use Rattle.bohm_log.specs.Columns.{AllNamed};
ghost use Rattle.bohm_log.specs.Layers.{all_names};
ghost use Rattle.bohm_log.specs.Parts.{names_at};
ghost use Rattle.bohm_shapes.specs.Apart.{all_apart, apart_numbers};

use bohm_log::NameTable;
use bohm_types::Key;
use std::marker::Model;

/// The keys that a procedure's names stand for, by their numbers among the names of a list of
/// calls. Contracts see them as a list of keys.
#[derive(Drop)]
pub struct SlotKeys<'a> {
    names: NameTable<'a>,
    numbers: &'a [u32],
}

impl<'a> Model for SlotKeys<'a> {
    ghost use Rattle.std.specs.Prelude.{ℕ, List};
    ghost use Rattle.bohm_log.specs.Columns.{AllNamed};
    ghost use Rattle.bohm_log.specs.Layers.{all_names};
    ghost use Rattle.bohm_log.specs.Parts.{names_at};

    ghost Value = { List (List ℕ) };

    ghost view = { λ k. names_at (all_names k.names) k.numbers.now };

    ghost use Rattle.std.specs.List.{IsDistinct};
    ghost use Rattle.std.specs.Str.{bytes_eq};

    ghost invariant = { λ k. AllNamed (all_names k.names) k.numbers.now
        × IsDistinct bytes_eq (all_names k.names) };
}

/// Whether a number is among others.
fn is_number_among(numbers: &[u32], number: u32) -> bool
    ensures { result ≡ list_any (λ n. n == number) numbers.now }
{
    numbers.iter().any(|other| *other == number)
}

/// Whether no number occurs twice.
fn apart_numbers(numbers: &[u32]) -> bool
    ensures { result ≡ apart_numbers numbers.now }
{
    match numbers {
        [] => true,
        [first, others @ ..] => !is_number_among(others, *first) && apart_numbers(others),
    }
}

impl<'a> SlotKeys<'a> {
    /// The keys with these numbers among distinct names.
    pub fn new(names: NameTable<'a>, numbers: &'a [u32]) -> SlotKeys<'a>
        requires named { AllNamed (all_names names) numbers.now }
        requires distinct { IsDistinct bytes_eq (all_names names) }
        ensures { result ≡ names_at (all_names names.entry) numbers.now }
    {
        SlotKeys { names, numbers }
    }

    /// How many keys there are.
    #[inline(always)]
    #[tactic(auto, using(crate::proofs::Slots::as_many))]
    pub fn len(&self) -> usize
        ensures { result ≡ length self.now }
    {
        self.numbers.len()
    }

    /// Whether no key occurs twice. The time grows with the square of the number of keys.
    #[tactic(auto, using(crate::proofs::Slots::apart_keys))]
    pub fn are_apart(&self) -> bool
        ensures { result ≡ all_apart self.now }
    {
        apart_numbers(self.numbers)
    }

    /// The key at an index.
    #[inline(always)]
    #[tactic(auto, using(crate::proofs::Slots::as_many))]
    pub fn key(&self, place: usize) -> &'a Key
        requires { place < length self.now }
        ensures { slice_get self.now place ≡ Some result.now }
    {
        name_by(self.names, self.numbers, place)
    }

    /// The number of the key at an index among the names. It is a hint: no contract says which key
    /// has the number, so the caller compares the key that it finds.
    #[inline(always)]
    #[tactic(auto, using(crate::proofs::Slots::as_many))]
    pub fn number(&self, place: usize) -> u32
        requires { place < length self.now }
    {
        number_at(self.numbers, place)
    }
}

fn number_at(numbers: &[u32], place: usize) -> u32
    requires { place < length numbers.now }
{
    numbers[place]
}

/// The name whose number is at an index.
#[inline(always)]
#[tactic(auto, using(crate::proofs::Slots::named_at))]
fn name_by<'a>(names: NameTable<'a>, numbers: &'a [u32], place: usize) -> &'a Key
    requires place { place < length numbers.now }
    requires named { AllNamed (all_names names) numbers.now }
    ensures { slice_get (names_at (all_names names.entry) numbers.now) place ≡ Some result.now }
{
    names.name(numbers[place] as usize)
}
