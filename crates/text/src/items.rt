//! Items of a line, parted by one space.

ghost use Rattle.std.specs.Prelude.{◌≡◌, ◌∷◌, ℕ, List, drop};
ghost use Rattle.std.specs.Iterator.{YieldsFirstRef, item_count};
ghost use Rattle.text.specs.Items.{items as items_of};
ghost use Rattle.text.specs.Numerals.{first_number, numbers as numbers_of};
ghost use Rattle.text.specs.Split.{items_after};

use crate::numerals::numeral;
use crate::split::split_at_first;
use std::marker::Model;

/// Takes the first item off: the item, and what follows its space, if there is one.
pub fn split_item(text: &[u8]) -> (&[u8], Option<&[u8]>)
    ensures { items_of text.now ≡ result.0.now ∷ items_after result.1 }
{
    split_at_first(text, b' ')
}

/// The items of a line that are left to take.
#[derive(Drop)]
pub struct Items<'a> {
    rest: Option<&'a [u8]>,
}

impl<'a> Model for Items<'a> {
    ghost Value = { List (List ℕ) };

    ghost view = { λ items. items_after items.rest };
}

impl<'a> Items<'a> {
    /// The items of a text: it has at least one.
    pub fn new(text: &'a [u8]) -> Self
        ensures { result ≡ items_of text.now }
    {
        Items { rest: Some(text) }
    }

    /// Takes the next item as a number; nothing where none is left, or it is no number.
    pub fn number(&mut self) -> Option<i32>
        ensures number { result ≡ first_number self.old }
        ensures rest { self.new ≡ drop 1 self.old }
    {
        numeral(self.next()?)
    }

    /// The items left as numbers; nothing where they are not just as many, or one is no number.
    pub fn numbers<const N: usize>(mut self) -> Option<[i32; N]>
        ensures { result ≡ numbers_of N self.entry }
    {
        let mut found = [0; N];
        for number in &mut found {
            *number = self.number()?;
        }
        self.next().is_none().then_some(found)
    }
}

impl<'a> Iterator for Items<'a> {
    type Item = &'a [u8];

    ghost next_gives = { YieldsFirstRef (λ items. items) };

    ghost remaining = { item_count (λ items. items) };

    fn next(&mut self) -> Option<&'a [u8]> {
        let (item, rest) = split_item(self.rest?);
        self.rest = rest;
        Some(item)
    }
}
