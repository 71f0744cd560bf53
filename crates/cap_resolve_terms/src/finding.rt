//! What may be wrong in a text, where, and which finding counts.
ghost use Rattle.std.specs.Prelude.{◌≡◌, fold};
ghost use Rattle.cap_resolve_spec.specs.Finding.{cause_number as variable_in, is_earlier as earlier};
ghost use Rattle.cap_resolve_spec.specs.Finding.{is_same_place as same_place, is_before as before};
ghost use Rattle.cap_resolve_spec.specs.Finding.{note as noted, found_if};
ghost use Rattle.cap_resolve_terms.specs.Views.{cause_view, finding_view, noted_view};

use cap_syntax::Place;

/// A limit on a text, in the order in which they count at one place.
#[derive(Clone, Copy, Debug, PartialEq, Eq)]
pub enum Limit {
    Functions,
    Regions,
    Parameters,
    Guards,
    Variables,
    Alloc,
    Width,
}

/// What is wrong, in the order in which causes count at one place. A name is that of the text.
#[derive(Clone, Copy, Debug)]
pub enum Cause<'a> {
    Unknown(&'a [u8]),
    Twice(&'a [u8]),
    Arity,
    Sort,
    NonLinear,
    NoMain,
    MainPre,
    SelfFact,
    Limit(Limit),
}

/// What is wrong, and where.
#[derive(Clone, Copy, Debug)]
pub struct Finding<'a> {
    pub place: Place,
    pub cause: Cause<'a>,
}

/// The first of the findings that were noted: the one with the least place and, at one place, the
/// least number. Noting takes no memory.
#[derive(Drop)]
pub struct Noted<'a> {
    pub first: Option<Finding<'a>>,
}

fn cause_number(cause: &Cause<'_>) -> u8
    ensures { result ≡ variable_in (cause_view cause.now) }
{
    match cause {
        Cause::Unknown(_) => 1,
        Cause::Twice(_) => 2,
        Cause::Arity => 3,
        Cause::Sort => 4,
        Cause::NonLinear => 5,
        Cause::NoMain => 6,
        Cause::MainPre => 7,
        Cause::SelfFact => 8,
        Cause::Limit(Limit::Functions) => 9,
        Cause::Limit(Limit::Regions) => 10,
        Cause::Limit(Limit::Parameters) => 11,
        Cause::Limit(Limit::Guards) => 12,
        Cause::Limit(Limit::Variables) => 13,
        Cause::Limit(Limit::Alloc) => 14,
        Cause::Limit(Limit::Width) => 15,
    }
}

/// Whether one place comes before another.
pub fn is_earlier(p: Place, q: Place) -> bool
    ensures { result ≡ earlier p q }
{
    p.line < q.line || (p.line == q.line && p.column < q.column)
}

fn is_same_place(p: Place, q: Place) -> bool
    ensures { result ≡ same_place p q }
{
    p.line == q.line && p.column == q.column
}

fn is_before(f: &Finding<'_>, g: &Finding<'_>) -> bool
    ensures { result ≡ before (finding_view f.now) (finding_view g.now) }
{
    is_earlier(f.place, g.place)
        || (is_same_place(f.place, g.place) && cause_number(&f.cause) < cause_number(&g.cause))
}

impl<'a> Noted<'a> {
    /// Notes a finding.
    pub fn note(&mut self, finding: Finding<'a>)
        ensures { noted_view self.new ≡ noted (noted_view self.old) (finding_view finding.entry) }
    {
        match &self.first {
            Some(first) if !is_before(&finding, first) => {}
            _ => self.first = Some(finding),
        }
    }

    /// Notes a finding where the condition holds.
    pub fn note_if(&mut self, wrong: bool, place: Place, cause: Cause<'a>)
        ensures { noted_view self.new
            ≡ fold noted (noted_view self.old) (found_if wrong place (cause_view cause.entry)) }
    {
        if wrong {
            self.note(Finding { place, cause });
        }
    }
}
