//! Items that are given, one after the other: the values of the names that are new.
ghost use Rattle.std.specs.Prelude.{◌≡◌, IfOk, OnOk, option_map};
ghost use Rattle.cap_prog.specs.Views.{item_view};
ghost use Rattle.cap_owners_spec.specs.Filling.{give_asked as asked_given};
ghost use Rattle.cap_owners_spec.specs.Filling.{give_comparison as comparison_given};
ghost use Rattle.cap_owners_spec.specs.Filling.{give_item as item_given, give_name as name_given};
ghost use Rattle.cap_owners_spec.specs.Filling.{give_parts as parts_given, give_slot as slot_given};
ghost use Rattle.cap_owners_spec.specs.Filling.{give_slots as slots_given, give_wildcard};
ghost use Rattle.cap_owners_fill.specs.Views.{conditional_of, conditional_view, giving_first};
ghost use Rattle.cap_owners_fill.specs.Views.{IsGivenUpTo, list_view};

use crate::fill::Fill;
use crate::reading::{bind, is_bound};
use cap_goal::Env;
use cap_lin::Term;
use cap_owners_values::Values;
use cap_prog::{Asked, Assertion, Comp, Item, Slot};
use std::alloc::{AllocError, Global};
use std::marker::Model;

/// Which names have terms by now, the values that are new, and those of `_`, of which the first ones
/// are used.
#[derive(Drop)]
pub(crate) struct Giving {
    env: Env,
    brought: Values,
    wildcards: Values,
    used: usize,
}

impl Model for Giving {
    ghost use Rattle.std.specs.Prelude.{drop};
    ghost use Rattle.cap_owners_spec.specs.Filling.{Giving};

    ghost Value = { Giving };

    ghost view = { λ g. record {
      env = g.env;
      new = g.brought;
      wildcards = drop g.used g.wildcards;
    } };
}

/// A conditional: its comparison, its sides, and the items that come behind it in its list.
#[derive(Clone, Copy)]
pub(crate) struct Conditional<'a> {
    pub(crate) comparison: &'a Comp,
    pub(crate) holding: &'a Assertion,
    pub(crate) failing: &'a Assertion,
    pub(crate) behind: &'a [Item],
}

// The conditional that an item is, if it is one, before these items.
fn as_conditional<'a>(item: &'a Item, behind: &'a [Item]) -> Option<Conditional<'a>>
    ensures { option_map conditional_view result
        ≡ conditional_of (item_view item.now) (list_view behind.now) }
{
    match item {
        Item::Choose(comparison, holding, failing) => Some(Conditional {
            comparison,
            holding,
            failing,
            behind,
        }),
        Item::Compare(_)
        | Item::Fact(_, _, _, _, _)
        | Item::Atom(_, _, _, _, _)
        | Item::Cell(_, _, _) => None,
    }
}

impl Giving {
    /// Nothing is new in an environment yet.
    pub(crate) fn new(alloc: Global, fill: &Fill, env: &Env) -> Result<Giving, AllocError>
        ensures { IfOk result (λ g. g ≡ giving_first fill.now env.now) }
    {
        Ok(Giving {
            env: env.copy(alloc)?,
            brought: Values::new(alloc),
            wildcards: fill.wildcards.copy(alloc)?,
            used: 0,
        })
    }

    /// The values that are new.
    pub(crate) fn brought(&self, alloc: Global) -> Result<Values, AllocError>
        ensures { IfOk result (λ v. v ≡ self.now.new) }
    {
        self.brought.copy(alloc)
    }

    /// The values of `_` that are left.
    pub(crate) fn wildcards(&self, alloc: Global) -> Result<Values, AllocError>
        ensures { IfOk result (λ v. v ≡ self.now.wildcards) }
    {
        self.wildcards.behind(alloc, self.used)
    }

    // A name brings its value, if it isn't bound yet.
    fn give_name(&mut self, alloc: Global, names: &Values, name: u32) -> Result<(), AllocError>
        ensures { OnOk result (self.new ≡ name_given names.now name self.old) }
    {
        if is_bound(&self.env, name) {
            return Ok(());
        }
        bind(alloc, &mut self.env, name);
        self.brought.push(names.at(name))
    }

    // The names of a term bring their values.
    fn give_term(&mut self, alloc: Global, names: &Values, term: &Term) -> Result<(), AllocError>
        ensures { OnOk result (self.new ≡ parts_given names.now term.now.parts self.old) }
    {
        for part in term.parts() {
            self.give_name(alloc, names, part.0)?;
        }
        Ok(())
    }

    // A `_` brings the next value of one.
    fn give_wildcard(&mut self, alloc: Global) -> Result<(), AllocError>
        ensures { OnOk result (self.new ≡ give_wildcard self.old.wildcards self.old) }
    {
        if self.used >= self.wildcards.len() {
            return Ok(());
        }
        let next = self.wildcards.part(alloc, self.used, 1)?;
        self.used += 1;
        self.brought.append(&next)
    }

    fn give_slot(&mut self, alloc: Global, names: &Values, slot: &Slot) -> Result<(), AllocError>
        ensures { OnOk result (self.new ≡ slot_given names.now slot.now self.old) }
    {
        match slot {
            Slot::Any => self.give_wildcard(alloc),
            Slot::Is(term) => self.give_term(alloc, names, term),
        }
    }

    fn give_slots(
        &mut self,
        alloc: Global,
        names: &Values,
        slots: &[Slot],
    ) -> Result<(), AllocError>
        ensures { OnOk result (self.new ≡ slots_given names.now slots.now self.old) }
    {
        for slot in slots {
            self.give_slot(alloc, names, slot)?;
        }
        Ok(())
    }

    fn give_asked(&mut self, alloc: Global, names: &Values, asked: &Asked) -> Result<(), AllocError>
        ensures { OnOk result (self.new ≡ asked_given names.now asked.now self.old) }
    {
        match asked {
            Asked::One => Ok(()),
            Asked::Share(slot) => self.give_slot(alloc, names, slot),
            Asked::Src(slot) => self.give_slot(alloc, names, slot),
            Asked::Tok(slot) => self.give_slot(alloc, names, slot),
            Asked::At(slot) => self.give_slot(alloc, names, slot),
            Asked::From(slot) => self.give_slot(alloc, names, slot),
        }
    }

    fn give_comparison(
        &mut self,
        alloc: Global,
        names: &Values,
        comparison: &Comp,
    ) -> Result<(), AllocError>
        ensures { OnOk result (self.new ≡ comparison_given names.now comparison.now self.old) }
    {
        self.give_term(alloc, names, &comparison.left)?;
        self.give_term(alloc, names, &comparison.right)
    }

    // An item is given; of a conditional, the comparison.
    fn give_item(&mut self, alloc: Global, names: &Values, item: &Item) -> Result<(), AllocError>
        ensures { OnOk result (self.new ≡ item_given names.now (item_view item.now) self.old) }
    {
        match item {
            Item::Compare(comparison) => self.give_comparison(alloc, names, comparison),
            Item::Choose(comparison, _, _) => self.give_comparison(alloc, names, comparison),
            Item::Fact(_, region, _, args, state) => {
                self.give_name(alloc, names, *region)?;
                self.give_slots(alloc, names, args)?;
                self.give_slot(alloc, names, state)
            }
            Item::Atom(_, region, _, _, asked) => {
                self.give_name(alloc, names, *region)?;
                self.give_asked(alloc, names, asked)
            }
            Item::Cell(_, address, content) => {
                self.give_term(alloc, names, address)?;
                self.give_slot(alloc, names, content)
            }
        }
    }

    /// The items of a list are given, up to the first conditional, which is answered. After an error
    /// what was given is lost.
    pub(crate) fn give_list<'a>(
        &mut self,
        alloc: Global,
        names: &Values,
        list: &'a [Item],
    ) -> Result<Option<Conditional<'a>>, AllocError>
        ensures { IfOk result
            (λ o. IsGivenUpTo names.now (list_view list.now) self.old self.new
            (option_map conditional_view o)) }
    {
        for place in 0..list.len() {
            let item = &list[place];
            self.give_item(alloc, names, item)?;
            if let Some(conditional) = as_conditional(item, &list[place + 1..]) {
                return Ok(Some(conditional));
            }
        }
        Ok(None)
    }
}
