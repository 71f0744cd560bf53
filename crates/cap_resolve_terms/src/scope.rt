//! A scope: the names that are known, with their variables and sorts.
ghost use Rattle.std.specs.Prelude.{◌≡◌, ◌<◌, ◌^◌, []};
ghost use Rattle.std.specs.Prelude.{◌∷◌, ◌++◌, length, OnOk, IfOk};
ghost use Rattle.std.specs.Prelude.{MatchOption};
ghost use Rattle.std.specs.Prelude.{ℕ, List, option_map, None, OnErr, bytes_eq};
ghost use Rattle.cap_resolve_spec.specs.Names.{sort_of, known_sort, has_name, variable_of};
ghost use Rattle.cap_resolve_spec.specs.Names.{knows as knows_name};
ghost use Rattle.cap_resolve_terms.specs.Views.{entry_view, number_in, first_number};

use cap_lin::Sort;
use indexmap::IndexMap;
use std::alloc::{AllocError, Global};
use std::marker::Model;

/// A name that is known, and its sort.
#[derive(Clone, Copy, Debug)]
pub struct Known<'a> {
    pub name: &'a [u8],
    pub sort: Sort,
}

/// Of each variable its name and sort, or none where its name is not known. Of two variables with
/// one name the first is meant.
pub struct Scope<'a> {
    entries: Vec<Option<Known<'a>>>,
    numbers: IndexMap<&'a [u8], usize>,
}

impl Drop for Scope<'_> {
    fn drop(self) {
        let Scope {
            entries: _,
            numbers: _,
        } = self;
    }
}

impl<'a> Model for Scope<'a> {
    ghost use Rattle.std.specs.Prelude.{map};
    ghost use Rattle.cap_resolve_spec.specs.Names.{NameScope};
    ghost use Rattle.cap_resolve_terms.specs.Views.{entry_view, Numbers};

    ghost Value = { NameScope };

    ghost view = { λ s. map entry_view s.entries.items };

    ghost invariant = { λ s. Numbers s.numbers.entries (map entry_view s.entries.items) };
}

impl<'a> Scope<'a> {
    /// The scope of no variables. It takes no memory.
    pub fn new(alloc: Global) -> Scope<'a>
        ensures { result ≡ [] }
    {
        Scope {
            entries: Vec::new(alloc),
            numbers: IndexMap::new(alloc),
        }
    }

    /// Appends a variable: a known name and its sort, or none where its name is not known. A name
    /// that an earlier variable has still stands for that one. There is an error where memory runs
    /// out, and then the scope is as it was.
    pub fn push(&mut self, known: Option<Known<'a>>) -> Result<(), AllocError>
        ensures pushed { OnOk result (self.new ≡ self.old ++ (entry_view known.entry ∷ [])) }
        ensures failed { OnErr result (self.new ≡ self.old) }
    {
        let number = self.entries.as_slice().len();
        self.entries.reserve(1)?;
        put_known(&mut self.numbers, known, number)?;
        self.entries.push_reserved(known);
        Ok(())
    }

    /// The same scope once more. There is an error where memory runs out.
    pub fn copy(&self, alloc: Global) -> Result<Scope<'a>, AllocError>
        ensures { IfOk result (λ copy. copy ≡ self.now) }
    {
        let mut copy = Scope::new(alloc);
        for known in &self.entries {
            copy.push(*known)?;
        }
        Ok(copy)
    }

    /// The number of variables.
    pub fn len(&self) -> usize
        ensures { result ≡ length self.now }
    {
        self.entries.as_slice().len()
    }

    /// Whether a name is known.
    pub fn knows(&self, name: &[u8]) -> bool
        ensures { result ≡ knows_name self.now name.now }
    {
        self.numbers.contains_key(name)
    }

    /// The number of the variable that a name stands for, or the number of variables where it is
    /// not known.
    pub fn number(&self, name: &[u8]) -> usize
        ensures { result ≡ variable_of self.now name.now }
    {
        match self.numbers.get(name) {
            Some(number) => *number,
            None => self.entries.as_slice().len(),
        }
    }

    /// The same number in 32 bits.
    pub fn variable(&self, name: &[u8]) -> u32
        requires { length self.now < 2 ^ 32 }
        ensures { result ≡ variable_of self.now name.now }
    {
        self.number(name) as u32
    }

    /// The sort of a name that is known.
    pub fn sort(&self, name: &[u8]) -> Option<Sort>
        ensures { result ≡ sort_of self.now name.now }
    {
        match self.numbers.get(name) {
            Some(number) => match self.entries.as_slice().get(*number) {
                Some(entry) => entry_sort(entry),
                None => None,
            },
            None => None,
        }
    }
}

fn entry_sort(entry: &Option<Known<'_>>) -> Option<Sort>
    ensures { result ≡ known_sort (entry_view entry.now) }
{
    match entry {
        Some(known) => Some(known.sort),
        None => None,
    }
}

/// Gives a known name its number, unless it has one.
fn put_known<'a>(
    numbers: &mut IndexMap<&'a [u8], usize>,
    known: Option<Known<'a>>,
    number: usize,
) -> Result<(), AllocError>
    ensures put { OnOk result ((x : List ℕ) → number_in numbers.new.entries x ≡ first_number
        (number_in numbers.old.entries x) (has_name x (entry_view known.entry)) number) }
    ensures failed { OnErr result
        ((x : List ℕ) → number_in numbers.new.entries x ≡ number_in numbers.old.entries x) }
{
    match known {
        Some(known) => put_number(numbers, known.name, number),
        None => Ok(()),
    }
}

/// Gives a name its number, unless it has one.
fn put_number<'a>(
    numbers: &mut IndexMap<&'a [u8], usize>,
    name: &'a [u8],
    number: usize,
) -> Result<(), AllocError>
    ensures put { OnOk result ((x : List ℕ) → number_in numbers.new.entries x
        ≡ first_number (number_in numbers.old.entries x) (bytes_eq x name.now) number) }
    ensures failed { OnErr result
        ((x : List ℕ) → number_in numbers.new.entries x ≡ number_in numbers.old.entries x) }
{
    if !numbers.contains_key(name) {
        numbers.insert(name, number)?;
    }
    Ok(())
}
