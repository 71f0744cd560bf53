//! A judge of choices, one after another.
ghost use Rattle.std.specs.Prelude.{◌<◌};
ghost use Rattle.cap_prog.specs.Views.{program_view};
ghost use Rattle.cap_kernel_check_steps.specs.Debts.{DebtsAreKept, owed_view};

use crate::gather::starts;
use cap_goal::Choice;
use cap_kernel_check_steps::{CheckError, Debt, debts_left, first_owed, owed_at, replace_first};
use cap_prog::Program;
use std::alloc::{AllocError, Global};

/// A judge of the trees of a program, which takes their choices one after another in preorder. It
/// keeps what is owed after them, the first of it last, and none of the choices. Once it is known
/// how they are judged whatever follows, it keeps nothing but that.
#[derive(Drop)]
pub struct Judge<'a> {
    program: &'a Program,
    next: u64,
    owed: Vec<Debt<'a>>,
    fault: Option<CheckError>,
    ghost numbered: { 0 < next },
    ghost kept: { ∥ DebtsAreKept (program_view program.now) (owed_view owed.items) ∥₁ },
}

impl<'a> Judge<'a> {
    ghost use Rattle.std.specs.Prelude.{◌≡◌, ◌≤◌, [], None, IfOk, OnErr};
    ghost use Rattle.cap_rules.specs.Valid.{deepest};
    ghost use Rattle.cap_goal.specs.Views.{choice_view};
    ghost use Rattle.cap_kernel_check_steps.specs.Judges.{AnswersFor, Judges, JudgesNext};
    ghost use Rattle.cap_kernel_check_steps.specs.Judges.{above_first, paid, path_of, with_fault};
    ghost use Rattle.cap_kernel_check.specs.JudgeViews.{judge_view};

    /// The judge of so many trees, before all choices.
    pub fn start(alloc: Global, program: &'a Program, trees: u32) -> Result<Judge<'a>, AllocError>
        ensures { IfOk result
            (λ j. Judges (program_view program.now) trees [] (judge_view j)) }
    {
        let starts = starts(alloc, program)?;
        if starts.len() != trees as usize {
            return Ok(Judge {
                program,
                next: 1,
                owed: Vec::new(alloc),
                fault: Some(CheckError::Shape(1)),
            });
        }
        Ok(Judge {
            program,
            next: 1,
            owed: owed_at(alloc, starts)?,
            fault: None,
        })
    }

    // From now on it is judged so, whatever choices follow.
    fn fail(&mut self, fault: CheckError)
        ensures { judge_view self.new ≡ with_fault (judge_view self.old) fault }
    {
        self.owed.clear();
        self.fault = Some(fault);
    }

    /// Takes the next choice. After want of memory the judge is as it was; more nodes than 64 bits
    /// can number count as that.
    pub fn push(&mut self, choice: &Choice) -> Result<(), AllocError>
        ensures judged { IfOk result (λ _. JudgesNext
            (judge_view self.old) (choice_view choice.now) (judge_view self.new)) }
        ensures unchanged { OnErr result (judge_view self.new ≡ judge_view self.old) }
    {
        match self.fault {
            Some(_) => Ok(()),
            None => self.judge(choice),
        }
    }

    // Takes the next choice, where none has failed.
    fn judge(&mut self, choice: &Choice) -> Result<(), AllocError>
        requires { self.old.fault ≡ None }
        ensures judged { IfOk result (λ _. JudgesNext
            (judge_view self.old) (choice_view choice.now) (judge_view self.new)) }
        ensures unchanged { OnErr result (judge_view self.new ≡ judge_view self.old) }
    {
        let alloc = *self.owed.allocator();
        let left = match first_owed(&self.owed) {
            None => {
                self.fail(CheckError::Shape(self.next));
                return Ok(());
            }
            Some(debt) => debts_left(alloc, self.program, debt, choice)?,
        };
        match left {
            None => {
                self.fail(CheckError::Node(self.next));
                Ok(())
            }
            Some(left) => self.pay(left),
        }
    }

    // How many nodes are above the next node, where none has failed.
    fn above(&self) -> u32
        ensures above { result ≡ above_first (judge_view self.now).owed }
        ensures shallow { result ≤ deepest }
    {
        match first_owed(&self.owed) {
            None => 0,
            Some(debt) => debt.above,
        }
    }

    // What the choice leaves is owed in place of what was owed first.
    fn pay(&mut self, left: Vec<Debt<'a>>) -> Result<(), AllocError>
        requires { ∥ DebtsAreKept (program_view self.old.program.now) (owed_view left.items) ∥₁ }
        ensures paid { IfOk result (λ _. judge_view self.new
            ≡ paid (judge_view self.old) (owed_view left.entry.items)) }
        ensures unchanged { OnErr result (judge_view self.new ≡ judge_view self.old) }
    {
        let next = match self.next.checked_add(1) {
            Some(next) => next,
            None => return Err(AllocError),
        };
        replace_first(&mut self.owed, left)?;
        self.next = next;
        Ok(())
    }

    /// How many nodes are above the next node in its tree, at most a thousand; 0 where nothing is
    /// owed, and where a choice has failed or was left over.
    pub fn path(&self) -> u32
        ensures above { result ≡ path_of (judge_view self.now) }
        ensures shallow { result ≤ deepest }
    {
        match self.fault {
            Some(_) => 0,
            None => self.above(),
        }
    }

    // How the choices are judged, where none has failed.
    fn outcome(&self) -> Result<u64, CheckError>
        requires { self.now.fault ≡ None }
        ensures { AnswersFor (judge_view self.now) result }
    {
        match first_owed(&self.owed) {
            None => Ok(self.next - 1),
            Some(debt) => match &debt.goal {
                None => Err(CheckError::Node(self.next)),
                Some(_) => Err(CheckError::Shape(self.next)),
            },
        }
    }

    /// How the choices are judged: `Ok` with their number where they are those of valid trees, of
    /// which there are as many as roots. `Shape(1)` comes where there are more trees or fewer, and
    /// otherwise `Node` or `Shape` by the first node that is wrong: `Node` where its choice does not
    /// apply, where it stands deeper than a thousand, or where no choice would apply at its root;
    /// `Shape` where it is left over or missing. It takes no memory, so `OutOfMemory` never comes.
    pub fn finish(self) -> Result<u64, CheckError>
        ensures { AnswersFor (judge_view self.entry) result }
    {
        match self.fault {
            Some(fault) => Err(fault),
            None => self.outcome(),
        }
    }
}
