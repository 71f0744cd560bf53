//! Readers of region types: names, guards, cases and actions.
// Region types. `room` is how many more brackets may open.

ghost use Rattle.std.specs.Prelude.{◌≡◌, Ok, map, option_map};
ghost use Rattle.cap_parse_tree.specs.Views.{comparison_view, several_view, group_view, behind_view};
ghost use Rattle.cap_parse_tree.specs.Views.{word_view, declared_view, both_view, joint_view};
ghost use Rattle.cap_parse_tree.specs.Views.{either_view, algebra_view, when_view, case_view};
ghost use Rattle.cap_parse_tree.specs.Views.{action_view, region_view};
ghost use Rattle.cap_parse_laws.specs.Classes.{are_same};
ghost use Rattle.cap_parse_laws.specs.Grammar.{read_comparison, read_declared, read_joint};
ghost use Rattle.cap_parse_laws.specs.Grammar.{read_grouped, grouped_at, read_algebra, read_when};
ghost use Rattle.cap_parse_laws.specs.Grammar.{read_optional_when, read_case, read_action, read_head};
ghost use Rattle.cap_parse_laws.specs.Grammar.{read_region, read_indexed};
ghost use Rattle.cap_parse_laws.specs.Readers.{read_name, read_more, read_several, read_optional};
ghost use Rattle.cap_parse_laws.specs.Readers.{read_until, read_group};
ghost use Rattle.cap_parse_laws.specs.declared.class.Class.TheVariants.{Comma, Star, Plus};
ghost use Rattle.cap_parse_laws.specs.declared.class.Class.TheVariants.{When as Under, CloseBrace};
ghost use Rattle.cap_parse_laws.specs.declared.class.Class.TheVariants.{Interpretation, Actions};
ghost use Rattle.cap_parse.specs.Reads.{IsRead};
ghost use Rattle.cap_parse.specs.Heads.{head_view, guarded_view, read_guarded, region_tree};
ghost use Rattle.cap_parse.specs.Heads.{region_body_view, read_region_parts};
ghost use Rattle.cap_parse.specs.Parts.{read_divisible, read_counting, case_head_view};
ghost use Rattle.cap_parse.specs.Parts.{read_case_head};
ghost use Rattle.cap_parse.specs.Parts.{action_guards_view, read_action_guards, transition_view};
ghost use Rattle.cap_parse.specs.Parts.{read_transition, action_end_view, read_action_end};

use crate::cursor::{Cursor, Stop};
use cap_parse_laws::Class;
use cap_parse_tree::{
    Action, Algebra, Both, Case, Comparison, Declared, Either, Group, GuardAtom, Joint, Region,
    Separated, Term, When, Word,
};
use cap_syntax::Place;

/// A region type's name and parameters.
#[derive(Drop)]
pub(crate) struct Head {
    name: Word,
    open: Place,
    parameters: Separated<Word>,
    close: Place,
}

/// A state, perhaps conditions, and a colon.
#[derive(Drop)]
pub(crate) struct CaseHead {
    state: Term,
    when: Option<When>,
    colon: Place,
}

/// The states before and behind an action, with the arrow between them.
#[derive(Drop)]
pub(crate) struct Transition {
    source: Term,
    arrow: Place,
    target: Term,
}

/// `guards`, an algebra and a semicolon.
#[derive(Drop)]
pub(crate) struct Guarded {
    guards: Place,
    algebra: Algebra,
    semicolon: Place,
}

/// What stands in the braces of a region type, and the closing one.
#[derive(Drop)]
pub(crate) struct RegionBody {
    guarded: Guarded,
    cases: Group<Case>,
    actions: Group<Action>,
    end: Place,
}

/// The region type of a keyword, a head, an opening brace and what stands behind it.
fn region_of(key: Place, head: Head, brace: Place, body: RegionBody) -> Region
    ensures { region_view result
        ≡ region_tree key (head_view head) brace (region_body_view body) }
{
    let Head {
        name,
        open,
        parameters,
        close,
    } = head;
    let RegionBody {
        guarded,
        cases,
        actions,
        end,
    } = body;
    let Guarded {
        guards,
        algebra,
        semicolon,
    } = guarded;
    Region {
        key,
        name,
        open,
        parameters,
        close,
        brace,
        guards,
        algebra,
        semicolon,
        cases,
        actions,
        end,
    }
}

impl<'a> Cursor<'a> {
    /// What `%`, which comes next, begins.
    fn divisible(&mut self) -> Result<Declared, Stop>
        ensures { IsRead declared_view result self.new.rest
            (read_divisible self.old.rest) }
    {
        let percent = self.next_place()?;
        let name = self.name()?;
        Ok(Declared::Divisible(percent, name))
    }

    /// What `|`, which comes next, begins.
    fn counting(&mut self) -> Result<Declared, Stop>
        ensures { IsRead declared_view result self.new.rest
            (read_counting self.old.rest) }
    {
        let open = self.next_place()?;
        let name = self.name()?;
        let close = self.expect(Class::Bar)?;
        Ok(Declared::Counting(open, name, close))
    }

    /// What the `[` of an indexed guard, which comes next, begins.
    fn indexed(&mut self, room: u32) -> Result<Declared, Stop>
        ensures { IsRead declared_view result self.new.rest (read_indexed room self.old.rest) }
    {
        let (_, open) = self.opening(room, Class::Index)?;
        let name = self.name()?;
        let close = self.expect(Class::CloseBracket)?;
        Ok(Declared::Indexed(open, name, close))
    }

    #[cycle(algebras)]
    fn declared(&mut self, room: u32) -> Result<Declared, Stop>
        ensures { IsRead declared_view result self.new.rest
            (read_declared room (grouped_at room) self.old.rest) }
    {
        match self.ahead() {
            Class::Name => Ok(Declared::Unique(self.next_word()?)),
            Class::Percent => self.divisible(),
            Class::Bar => self.counting(),
            Class::Index => self.indexed(room),
            _ => self.grouped(room),
        }
    }

    #[cycle(algebras)]
    fn grouped(&mut self, room: u32) -> Result<Declared, Stop>
        ensures { IsRead declared_view result self.new.rest (grouped_at room self.old.rest) }
    {
        if room > 0 {
            return self.algebra_in_parentheses(room - 1);
        }
        if self.is_ahead(Class::Open) {
            Err(Stop::TooDeep)
        } else {
            Err(Stop::Unexpected)
        }
    }

    #[cycle(algebras)]
    fn algebra_in_parentheses(&mut self, room: u32) -> Result<Declared, Stop>
        ensures { IsRead declared_view result self.new.rest
            (read_grouped (read_algebra room) self.old.rest) }
    {
        let open = self.expect(Class::Open)?;
        let algebra = self.algebra(room)?;
        let close = self.expect(Class::Close)?;
        Ok(Declared::Bracketed(open, Box::new(self.alloc, algebra)?, close))
    }

    #[cycle(algebras)]
    fn more_declared(&mut self, room: u32) -> Result<Vec<Both>, Stop>
        ensures { IsRead (λ v. map both_view v.items) result self.new.rest
            (read_more Star (read_declared room (grouped_at room)) self.old.rest) }
    {
        let mut more = Vec::new(self.alloc);
        while self.is_ahead(Class::Star) {
            let star = self.next_place()?;
            let declared = self.declared(room)?;
            more.push(Both { star, declared })?;
        }
        Ok(more)
    }

    #[cycle(algebras)]
    fn joint(&mut self, room: u32) -> Result<Joint, Stop>
        ensures { IsRead joint_view result self.new.rest
            (read_joint room (grouped_at room) self.old.rest) }
    {
        let first = self.declared(room)?;
        let more = self.more_declared(room)?;
        Ok(Joint { first, more })
    }

    #[cycle(algebras)]
    fn more_joints(&mut self, room: u32) -> Result<Vec<Either>, Stop>
        ensures { IsRead (λ v. map either_view v.items) result self.new.rest
            (read_more Plus (read_joint room (grouped_at room)) self.old.rest) }
    {
        let mut more = Vec::new(self.alloc);
        while self.is_ahead(Class::Plus) {
            let plus = self.next_place()?;
            let joint = self.joint(room)?;
            more.push(Either { plus, joint })?;
        }
        Ok(more)
    }

    #[cycle(algebras)]
    fn algebra(&mut self, room: u32) -> Result<Algebra, Stop>
        ensures { IsRead algebra_view result self.new.rest
            (read_algebra room self.old.rest) }
    {
        let first = self.joint(room)?;
        let more = self.more_joints(room)?;
        Ok(Algebra { first, more })
    }

    fn more_comparisons(&mut self, room: u32) -> Result<Vec<(Place, Comparison)>, Stop>
        ensures { IsRead (λ v. map (behind_view comparison_view) v.items) result self.new.rest
            (read_more Comma (read_comparison room) self.old.rest) }
    {
        let mut more = Vec::new(self.alloc);
        while self.is_ahead(Class::Comma) {
            let comma = self.next_place()?;
            let comparison = self.comparison(room)?;
            more.push((comma, comparison))?;
        }
        Ok(more)
    }

    fn several_comparisons(&mut self, room: u32) -> Result<Separated<Comparison>, Stop>
        ensures { IsRead (several_view comparison_view) result self.new.rest
            (read_several Comma (read_comparison room) self.old.rest) }
    {
        let first = self.comparison(room)?;
        let more = self.more_comparisons(room)?;
        Ok(Separated { first, more })
    }

    fn when(&mut self, room: u32) -> Result<When, Stop>
        ensures { IsRead when_view result self.new.rest (read_when room self.old.rest) }
    {
        let key = self.expect(Class::When)?;
        let comparisons = self.several_comparisons(room)?;
        Ok(When { key, comparisons })
    }

    fn optional_when(&mut self, room: u32) -> Result<Option<When>, Stop>
        ensures { IsRead (option_map when_view) result self.new.rest
            (read_optional_when room self.old.rest) }
    {
        if self.is_ahead(Class::When) {
            Ok(Some(self.when(room)?))
        } else {
            Ok(None)
        }
    }

    fn case_head(&mut self, room: u32) -> Result<CaseHead, Stop>
        ensures { IsRead case_head_view result self.new.rest
            (read_case_head room self.old.rest) }
    {
        let state = self.term(room)?;
        let when = self.optional_when(room)?;
        let colon = self.expect(Class::Colon)?;
        Ok(CaseHead { state, when, colon })
    }

    fn case(&mut self, room: u32) -> Result<Case, Stop>
        ensures { IsRead case_view result self.new.rest (read_case room self.old.rest) }
    {
        let head = self.case_head(room)?;
        let assertion = self.assertion(room)?;
        let semicolon = self.expect(Class::Semicolon)?;
        let CaseHead { state, when, colon } = head;
        Ok(Case {
            state,
            when,
            colon,
            assertion,
            semicolon,
        })
    }

    /// The guards of an action, and a colon.
    fn action_guards(&mut self, room: u32) -> Result<(Separated<GuardAtom>, Place), Stop>
        ensures { IsRead action_guards_view result self.new.rest
            (read_action_guards room self.old.rest) }
    {
        let guards = self.guards(room)?;
        let colon = self.expect(Class::Colon)?;
        Ok((guards, colon))
    }

    fn transition(&mut self, room: u32) -> Result<Transition, Stop>
        ensures { IsRead transition_view result self.new.rest
            (read_transition room self.old.rest) }
    {
        let source = self.term(room)?;
        let arrow = self.expect(Class::LeadsTo)?;
        let target = self.term(room)?;
        Ok(Transition {
            source,
            arrow,
            target,
        })
    }

    /// Perhaps conditions, and the semicolon of an action.
    fn action_end(&mut self, room: u32) -> Result<(Option<When>, Place), Stop>
        ensures { IsRead action_end_view result self.new.rest
            (read_action_end room self.old.rest) }
    {
        let when = self.optional_when(room)?;
        let semicolon = self.expect(Class::Semicolon)?;
        Ok((when, semicolon))
    }

    fn action(&mut self, room: u32) -> Result<Action, Stop>
        ensures { IsRead action_view result self.new.rest (read_action room self.old.rest) }
    {
        let (guards, colon) = self.action_guards(room)?;
        let transition = self.transition(room)?;
        let (when, semicolon) = self.action_end(room)?;
        let Transition {
            source,
            arrow,
            target,
        } = transition;
        Ok(Action {
            guards,
            colon,
            source,
            arrow,
            target,
            when,
            semicolon,
        })
    }

    fn cases(&mut self, room: u32) -> Result<Vec<Case>, Stop>
        ensures { IsRead (λ v. map case_view v.items) result self.new.rest
            (read_until CloseBrace (read_case room) self.old.rest) }
    {
        let mut cases = Vec::new(self.alloc);
        while !self.is_ahead(Class::CloseBrace) {
            let case = self.case(room)?;
            cases.push(case)?;
        }
        Ok(cases)
    }

    fn actions(&mut self, room: u32) -> Result<Vec<Action>, Stop>
        ensures { IsRead (λ v. map action_view v.items) result self.new.rest
            (read_until CloseBrace (read_action room) self.old.rest) }
    {
        let mut actions = Vec::new(self.alloc);
        while !self.is_ahead(Class::CloseBrace) {
            let action = self.action(room)?;
            actions.push(action)?;
        }
        Ok(actions)
    }

    fn interpretation(&mut self, room: u32) -> Result<Group<Case>, Stop>
        ensures { IsRead (group_view case_view) result self.new.rest
            (read_group room Interpretation read_case self.old.rest) }
    {
        let key = self.expect(Class::Interpretation)?;
        let (inner, open) = self.opening(room, Class::OpenBrace)?;
        let parts = self.cases(inner)?;
        let close = self.expect(Class::CloseBrace)?;
        Ok(Group {
            key,
            open,
            parts,
            close,
        })
    }

    fn action_group(&mut self, room: u32) -> Result<Group<Action>, Stop>
        ensures { IsRead (group_view action_view) result self.new.rest
            (read_group room Actions read_action self.old.rest) }
    {
        let key = self.expect(Class::Actions)?;
        let (inner, open) = self.opening(room, Class::OpenBrace)?;
        let parts = self.actions(inner)?;
        let close = self.expect(Class::CloseBrace)?;
        Ok(Group {
            key,
            open,
            parts,
            close,
        })
    }

    pub(crate) fn more_names(&mut self) -> Result<Vec<(Place, Word)>, Stop>
        ensures { IsRead (λ v. map (behind_view word_view) v.items) result self.new.rest
            (read_more Comma read_name self.old.rest) }
    {
        let mut more = Vec::new(self.alloc);
        while self.is_ahead(Class::Comma) {
            let comma = self.next_place()?;
            let name = self.name()?;
            more.push((comma, name))?;
        }
        Ok(more)
    }

    pub(crate) fn several_names(&mut self) -> Result<Separated<Word>, Stop>
        ensures { IsRead (several_view word_view) result self.new.rest
            (read_several Comma read_name self.old.rest) }
    {
        let first = self.name()?;
        let more = self.more_names()?;
        Ok(Separated { first, more })
    }

    fn head(&mut self, room: u32) -> Result<Head, Stop>
        ensures { IsRead head_view result self.new.rest (read_head room self.old.rest) }
    {
        let name = self.name()?;
        let (_, open) = self.opening(room, Class::Open)?;
        let parameters = self.several_names()?;
        let close = self.expect(Class::Close)?;
        Ok(Head {
            name,
            open,
            parameters,
            close,
        })
    }

    fn guarded(&mut self, room: u32) -> Result<Guarded, Stop>
        ensures { IsRead guarded_view result self.new.rest
            (read_guarded room self.old.rest) }
    {
        let guards = self.expect(Class::Guards)?;
        let algebra = self.algebra(room)?;
        let semicolon = self.expect(Class::Semicolon)?;
        Ok(Guarded {
            guards,
            algebra,
            semicolon,
        })
    }

    fn region_body(&mut self, room: u32) -> Result<RegionBody, Stop>
        ensures { IsRead region_body_view result self.new.rest
            (read_region_parts room self.old.rest) }
    {
        let guarded = self.guarded(room)?;
        let cases = self.interpretation(room)?;
        let actions = self.action_group(room)?;
        let end = self.expect(Class::CloseBrace)?;
        Ok(RegionBody {
            guarded,
            cases,
            actions,
            end,
        })
    }

    /// What `region`, which comes next, begins.
    pub(crate) fn region(&mut self, room: u32) -> Result<Region, Stop>
        ensures { IsRead region_view result self.new.rest (read_region room self.old.rest) }
    {
        let key = self.next_place()?;
        let head = self.head(room)?;
        let (inner, brace) = self.opening(room, Class::OpenBrace)?;
        let body = self.region_body(inner)?;
        Ok(region_of(key, head, brace, body))
    }
}
