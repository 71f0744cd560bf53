//! Choices of rules, trees of choices, and the units that they prove.
ghost use Rattle.std.specs.Prelude.{◌≡◌};
ghost use Rattle.cap_goal_spec.specs.Choices.{with_certs};
ghost use Rattle.cap_goal.specs.Views.{choice_view};

use cap_farkas::Cert;

/// No node of a tree stands deeper, its root being at depth 1.
pub const DEEPEST: u32 = 1000;

/// Which rule is taken at a goal, and how. Cells, facts, pieces, opened regions, cases, sums and
/// candidates are named by number, from 0; a move is 0 for none, or the number of an action, from
/// 1.
pub enum Choice {
    /// The rows contradict each other.
    Absurd(Cert),
    /// Two cells have one address.
    Clash(u32, u32, Vec<Cert>),
    Set,
    Alloc,
    Assert(Vec<Cert>),
    If,
    /// A loop is left to its own tree.
    Loop,
    /// A loop is entered or left, its invariant given.
    Turn,
    Call,
    Fork,
    Return,
    /// Open the region of a fact.
    Enter(u32, Vec<Cert>),
    /// Act on a cell. A mark is a certificate that two regions differ, or none.
    Act(u32, Vec<Cert>, Vec<Option<Cert>>),
    /// Close an opened region in a case by a move.
    Pick(u32, u32, u32),
    /// Check a move. For each indexed atom of its action, in their order, it names a piece of the
    /// guards that were held before.
    Shift(Vec<Cert>, Vec<u32>),
    /// Settle a fact by candidates.
    Settle(Vec<u32>, Vec<Cert>),
    /// Keep the state of a fact.
    Keep(Vec<Cert>),
    Give,
    Fact(Vec<Cert>),
    Cases,
    /// Give up a cell.
    Cell(u32, Vec<Cert>),
    /// State a region by a fact.
    Region(u32, Vec<Cert>),
    /// Take a guard out of a piece: 0 takes all, 1 a part, and 2 no token.
    Guard(u32, u32, Vec<Cert>),
    /// Convert one side of a sum, 0 the left one, to the other.
    Convert(u32, u32, Vec<Cert>),
    /// Create a region in a case.
    Create(u32),
    Made(Vec<Cert>),
}

impl Drop for Choice {
    fn drop(self) {
        match self {
            Choice::Set
            | Choice::Alloc
            | Choice::If
            | Choice::Loop
            | Choice::Turn
            | Choice::Call
            | Choice::Fork
            | Choice::Return
            | Choice::Give
            | Choice::Cases
            | Choice::Absurd(_)
            | Choice::Clash(_, _, _)
            | Choice::Assert(_)
            | Choice::Enter(_, _)
            | Choice::Act(_, _, _)
            | Choice::Pick(_, _, _)
            | Choice::Shift(_, _)
            | Choice::Settle(_, _)
            | Choice::Keep(_)
            | Choice::Fact(_)
            | Choice::Cell(_, _)
            | Choice::Region(_, _)
            | Choice::Guard(_, _, _)
            | Choice::Convert(_, _, _)
            | Choice::Create(_)
            | Choice::Made(_) => {}
        }
    }
}

impl Choice {
    /// The choice with these certificates in place of its own. An absurdity and an act stay as they
    /// are, and so does a choice that has none.
    pub fn with_certs(self, certs: Vec<Cert>) -> Choice
        ensures { choice_view result ≡ with_certs (choice_view self) certs.items }
    {
        match self {
            Choice::Clash(i, j, _) => Choice::Clash(i, j, certs),
            Choice::Assert(_) => Choice::Assert(certs),
            Choice::Enter(i, _) => Choice::Enter(i, certs),
            Choice::Shift(_, spans) => Choice::Shift(certs, spans),
            Choice::Settle(list, _) => Choice::Settle(list, certs),
            Choice::Keep(_) => Choice::Keep(certs),
            Choice::Fact(_) => Choice::Fact(certs),
            Choice::Cell(j, _) => Choice::Cell(j, certs),
            Choice::Region(j, _) => Choice::Region(j, certs),
            Choice::Guard(j, way, _) => Choice::Guard(j, way, certs),
            Choice::Convert(n, side, _) => Choice::Convert(n, side, certs),
            Choice::Made(_) => Choice::Made(certs),
            kept => kept,
        }
    }
}

/// A choice, with a tree for each of its subgoals.
#[cycle(node)]
#[derive(Drop)]
pub struct Node {
    pub choice: Choice,
    pub children: Vec<Node>,
}

/// One tree for each root of all units; a root without tasks has none.
#[derive(Drop)]
pub struct Bundle {
    pub trees: Vec<Option<Node>>,
}

/// A region type or a function, by its number from 0.
#[derive(Clone, Copy, Debug, PartialEq, Eq)]
pub enum Unit {
    Region(u32),
    Function(u32),
}
