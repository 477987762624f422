//! The names that a script's steps introduced.

ghost use Rattle.std.specs.Prelude.{◌≡◌, ℕ, ◌<◌, ◌^◌, [], length, map, string_bytes, Some, IfSome};

use crate::cause::Cause;
use crate::name::Name;
use std::alloc::Global;
use std::collections::BTreeMap;
use std::marker::Model;

/// How many places there are for the numbers of recent names.
const PLACES: usize = 1024;

/// The names introduced so far, in order, and the number of each. A name that was introduced of late is most often found
/// by one comparison, at the position of its text in `recent`; what stands there may be any number.
#[derive(Drop)]
pub(crate) struct Names<'a> {
    texts: Vec<String>,
    numbers: BTreeMap<&'a str, u32>,
    recent: [u32; PLACES],
}

/// The position of a text among the recent names.
fn place_of(text: &str) -> usize
    ensures { result < 1024 }
{
    let mut sum: u32 = 0;
    for byte in text.as_bytes() {
        sum = sum.wrapping_mul(31).wrapping_add(u32::from(*byte));
    }
    (sum.wrapping_mul(2_654_435_761) >> 16) as usize % PLACES
}

impl<'a> Model for Names<'a> {
    ghost use Rattle.std.specs.Prelude.{◌≡◌, ℕ, List, map, string_bytes};
    ghost use Rattle.std.specs.Ordering.{nat_cmp};
    ghost use Rattle.std.specs.Cmp.Lexicographic.{slice_cmp};
    ghost use Rattle.std.specs.BTreeMap.{get_by};
    ghost use Rattle.cyc_script.specs.Names.{IsNumbered, number_of_name};

    ghost Value = { List (List ℕ) };

    ghost view = { λ a. map string_bytes a.texts.items };

    ghost invariant = { λ a. ((q : List ℕ) → get_by (λ k. slice_cmp nat_cmp q k.now) a.numbers
        ≡ number_of_name q (map string_bytes a.texts.items)) × IsNumbered (map string_bytes a.texts.items) };
}

impl<'a> Names<'a> {
    ghost use Rattle.cyc_script.specs.Answers.{Gives};
    ghost use Rattle.cyc_script.specs.Names.{introduced, number_of_name, referred};

    /// No names.
    pub(crate) fn new(alloc: Global) -> Names<'a>
        ensures { result ≡ [] }
    {
        Names {
            texts: Vec::new(alloc),
            numbers: BTreeMap::new(alloc),
            recent: [0; PLACES],
        }
    }

    /// Forgets all names.
    pub(crate) fn clear(&mut self, alloc: Global)
        ensures { self.new ≡ [] }
    {
        self.texts = Vec::new(alloc);
        self.numbers = BTreeMap::new(alloc);
    }

    /// The number of a name, where it stands at the position of its text.
    fn recent_number(&self, text: &str) -> Option<u32>
        ensures { IfSome result (λ number. number_of_name text.now self.now ≡ Some number) }
    {
        let number = self.recent[place_of(text)];
        let at = number as usize;
        if at < self.texts.len() && self.texts[at].as_str() == text {
            return Some(number);
        }
        None
    }

    /// The number of a name that was introduced.
    pub(crate) fn number(&self, text: &str) -> Result<Name, Cause>
        ensures { result ≡ referred text.now self.now }
    {
        if let Some(number) = self.recent_number(text) {
            return Ok(Name::new(number));
        }
        match self.numbers.get(text) {
            Some(number) => Ok(Name::new(*number)),
            None => Err(Cause::NoName),
        }
    }

    /// Introduces a name, which gets the next number.
    pub(crate) fn introduce(&mut self, alloc: Global, text: &'a str) -> Result<Name, Cause>
        requires { length self.old < 2 ^ 32 }
        ensures { Gives (λ name. (name, self.new)) result (introduced text.now self.old) }
    {
        if self.numbers.contains_key(text) {
            return Err(Cause::NameTwice);
        }
        let number = self.texts.len() as u32;
        self.texts.push(String::from_str(alloc, text)?)?;
        match self.numbers.insert(text, number) {
            Ok(_) => {
                self.recent[place_of(text)] = number;
                Ok(Name::new(number))
            }
            Err(_) => {
                self.texts.pop();
                Err(Cause::Memory)
            }
        }
    }

    /// All names, in order.
    pub(crate) fn into_texts(self) -> Vec<String>
        ensures { map string_bytes result.items ≡ self.entry }
    {
        self.texts
    }
}
