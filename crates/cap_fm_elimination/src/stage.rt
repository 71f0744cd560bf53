//! The rows that arose in an elimination, each term once, with their history and the count.
ghost use Rattle.std.specs.Prelude.{◌≡◌, ◌<◌, [], ℕ, List, get_or, false, true, IfOk};
ghost use Rattle.cap_fm_spec.specs.Runs.{at_first};
ghost use Rattle.cap_fm_elimination.specs.Entries.{Entry};
ghost use Rattle.cap_fm_elimination.specs.Forms.{digest_of, low_word, mixed, with_part};
ghost use Rattle.cap_fm_elimination.specs.Views.{stage_view, term_of, IsStageOf};
ghost use Rattle.cap_fm_elimination.specs.Answers.{DoesCount, Remarks, Notes};

use crate::entry::Origin;
use crate::error::SolveError;
use bumpalo::Bump;
use cap_lin::{Kind, Term};
use indexmap::IndexSet;
use std::alloc::{AllocError, Global};
use std::hash::{BuildHasherDefault, FoldHasher, Hash, Hasher};
use std::marker::Model;

/// How many rows one elimination may have.
const LIMIT: usize = 4096;

// The low 64 bits of a number.
const LOW_WORD: u128 = 0xFFFF_FFFF_FFFF_FFFF;

// An odd number near 2^64 over the golden ratio, by which a digest is spread before the next word
// (multiplicative hashing).
const MULTIPLIER: u64 = 0x9E37_79B9_7F4A_7C15;

// An input row lends its term, and a combination has its own.
#[derive(Drop)]
enum FormTerm<'a> {
    Given(&'a Term),
    Made(Box<Term, &'a Bump>),
}

// A row as it is compared with others: the sort plays no part.
#[derive(Drop)]
struct Form<'a> {
    kind: Kind,
    term: FormTerm<'a>,
}

impl<'a> Model for Form<'a> {
    ghost use Rattle.cap_lin.specs.Linear.{Linear};
    ghost use Rattle.cap_lin.specs.declared.row.Kind.{Kind};
    ghost use Rattle.cap_fm_elimination.specs.Terms.{form_term};

    ghost Value = { Linear × Kind };

    ghost view = { λ f. (form_term f.term, f.kind) };
}

impl<'a> PartialEq for Form<'a> {
    ghost use Rattle.std.specs.Cmp.{partial_equiv_from_equiv};
    ghost use Rattle.cap_fm_elimination.specs.Forms.{same_form};
    ghost use Rattle.cap_fm_elimination.specs.Laws.Sameness.{same_form-equivalence};

    ghost eq = { same_form };

    ghost laws = { partial_equiv_from_equiv same_form-equivalence };

    fn eq(&self, other: &Form<'a>) -> bool {
        self.kind == other.kind && self.term() == other.term()
    }
}

impl<'a> Eq for Form<'a> {
    ghost use Rattle.cap_fm_elimination.specs.Laws.Sameness.{same_form-equivalence};

    ghost laws = { same_form-equivalence };
}

// Of a term one word is hashed, since elimination asks for many rows.
impl<'a> Hash for Form<'a> {
    ghost use Rattle.std.specs.Hash as fed;
    ghost use Rattle.std.specs.Hash.{same_Alike};
    ghost use Rattle.cap_fm_elimination.specs.Forms.{digest_of};
    ghost use Rattle.cap_fm_elimination.specs.Laws.Sameness.{same_form-decides};

    ghost hash_input = { λ f. fed.u64 (digest_of f.0) };

    ghost respects_eq = { (same_Alike _ same_form-decides).fed };

    fn hash<H: Hasher>(&self, state: &mut H) {
        state.write_u64(digest(self.term()));
    }
}

impl<'a> Form<'a> {
    fn term(&self) -> &Term
        ensures { result.now ≡ self.now.0 }
    {
        match &self.term {
            FormTerm::Given(term) => term,
            FormTerm::Made(term) => term,
        }
    }
}

fn digest(term: &Term) -> u64
    ensures { result ≡ digest_of term.now }
{
    let mut digest = low_word(term.constant_part());
    for part in term.parts() {
        digest = with_part(digest, *part);
    }
    digest
}

fn with_part(digest: u64, part: (u32, i128)) -> u64
    ensures { result ≡ with_part digest part }
{
    let (variable, coefficient) = part;
    mixed(mixed(digest, variable as u64), low_word(coefficient))
}

fn low_word(number: i128) -> u64
    ensures { result ≡ low_word number }
{
    (number.cast_unsigned() & LOW_WORD) as u64
}

fn mixed(digest: u64, word: u64) -> u64
    ensures { result ≡ mixed digest word }
{
    digest.wrapping_mul(MULTIPLIER).wrapping_add(word)
}

/// The rows that arose in an elimination, equal ones once, which of them are present, and where
/// each row that was kept comes from.
pub struct Stage<'a> {
    forms: IndexSet<Form<'a>, BuildHasherDefault<FoldHasher>, &'a Bump>,
    // The term of a number that no row has.
    zero: Term,
    bump: &'a Bump,
    present: Vec<bool, &'a Bump>,
    history: Vec<Origin, &'a Bump>,
}

impl Drop for Stage<'_> {
    fn drop(self) {
        let Stage {
            forms: _,
            zero: _,
            bump: _,
            present: _,
            history: _,
        } = self;
    }
}

impl<'a> Stage<'a> {
    /// The stage before any row has arisen, with room for so many.
    pub fn with_room(alloc: Global, bump: &'a Bump, rows: usize) -> Result<Stage<'a>, AllocError>
        ensures view { IfOk result (λ stage. stage_view stage ≡ at_first) }
        ensures fits { IfOk result (λ stage. (inputs : ℕ) → IsStageOf inputs stage []) }
    {
        let forms = IndexSet::with_capacity_and_hasher(bump, rows, BuildHasherDefault::new())?;
        let present = Vec::with_capacity(bump, rows)?;
        let history = Vec::with_capacity(bump, rows)?;
        Ok(Stage {
            forms,
            zero: Term::constant(alloc, 0),
            bump,
            present,
            history,
        })
    }

    /// The arena of the elimination.
    pub fn bump(&self) -> &'a Bump {
        self.bump
    }

    /// Counts an input row, unless an equal one arose before, and gives its number. `Rows` comes
    /// where it would be the 4,097th.
    pub fn count_given(&mut self, term: &'a Term, kind: Kind) -> Result<usize, SolveError>
        ensures { (inputs : ℕ) (present : List Entry) → IsStageOf inputs self.old present →
            DoesCount inputs self.old self.new present term.now kind result }
    {
        let term = FormTerm::Given(term);
        self.count_form(Form { kind, term })
    }

    /// Counts a combination, as `count_given` does an input row.
    pub fn count_made(&mut self, term: Term, kind: Kind) -> Result<usize, SolveError>
        ensures { (inputs : ℕ) (present : List Entry) → IsStageOf inputs self.old present →
            DoesCount inputs self.old self.new present term kind result }
    {
        let term = FormTerm::Made(Box::new(self.bump, term)?);
        self.count_form(Form { kind, term })
    }

    // Most calls are for input rows. It stands in the loop over these, which takes less time.
    #[inline(always)]
    fn count_form(&mut self, form: Form<'a>) -> Result<usize, SolveError>
        ensures { (inputs : ℕ) (present : List Entry) → IsStageOf inputs self.old present →
            DoesCount inputs self.old self.new present form.entry.0 form.entry.1 result }
    {
        let (number, is_new) = self.forms.insert_full(form)?;
        if is_new {
            if number >= LIMIT {
                return Err(SolveError::Rows);
            }
            self.present.push(false)?;
        }
        Ok(number)
    }

    /// The term of the row of a number; 0 for a number that no row has.
    pub fn term(&self, number: usize) -> &Term
        ensures { result.now ≡ term_of self.now number }
    {
        match self.forms.get_index(number) {
            Some(form) => form.term(),
            None => self.no_term(),
        }
    }

    // It stands apart, so that `term` is a test and an address.
    #[inline(never)]
    fn no_term(&self) -> &Term
        ensures { result.now ≡ self.now.zero }
    {
        &self.zero
    }

    /// Whether the row of a number is present; false for a number that no row has.
    pub fn is_present(&self, number: usize) -> bool
        ensures { result ≡ get_or self.now.present.items number false }
    {
        self.present.get(number).copied().unwrap_or(false)
    }

    /// The row of a number is present from now on.
    pub fn enter(&mut self, number: usize)
        ensures { Remarks self.old self.new number true }
    {
        if let Some(mark) = self.present.get_mut(number) {
            *mark = true;
        }
    }

    /// The row of a number is no longer present.
    pub fn leave(&mut self, number: usize)
        ensures { Remarks self.old self.new number false }
    {
        if let Some(mark) = self.present.get_mut(number) {
            *mark = false;
        }
    }

    /// Notes where a row comes from, and gives its place in the history.
    pub fn note(&mut self, origin: Origin) -> Result<usize, AllocError>
        ensures { IfOk result (Notes self.old self.new origin) }
    {
        let place = self.history.len();
        self.history.push(origin)?;
        Ok(place)
    }

    /// Where each row that was kept comes from, the first one first.
    pub fn history(&self) -> &[Origin]
        ensures { result.now ≡ self.now.history.items }
    {
        &self.history
    }
}
