//! The tokens of lists, of groups, and of what may be left out.
// Lists of parts, each put in front of the tail from its last part to its first.

ghost use Rattle.std.specs.Prelude.{◌≡◌, IfOk, List, map, option_map};
ghost use Rattle.cap_syntax.specs.declared.token.Token.{Token};
ghost use Rattle.cap_parse_tree.specs.declared.word.Word.{Word};
ghost use Rattle.cap_parse_tree.specs.Spelling.{spell_all, spell_more, spell_several, spell_option};
ghost use Rattle.cap_parse_tree.specs.Spelling.{spell_listed, spell_group, spell_name};
ghost use Rattle.cap_parse_tree.specs.Views.{behind_view, several_view, listed_view, group_view};
ghost use Rattle.cap_parse_tree.specs.Views.{word_view};

use crate::tail::Tail;
use cap_parse_tree::{Group, Listed, Separated, Word};
use cap_syntax::Place;
use std::alloc::AllocError;

/// A part of a tree that lists have. `view` is the plain part, and `spell` what it spells.
pub(crate) trait Part {
    ghost Plain: { Type 0 };

    ghost view: { Self → Plain };

    ghost spell: { Plain → List Token → List Token };

    /// Puts the part in front of the tail.
    fn put<'a>(&'a self, tail: &mut Tail<'a>) -> Result<(), AllocError>
        ensures { IfOk result (λ _. tail.new ≡ spell (view self.now) tail.old) };
}

impl Part for Word {
    ghost Plain = { Word };

    ghost view = { word_view };

    ghost spell = { spell_name };

    fn put<'a>(&'a self, tail: &mut Tail<'a>) -> Result<(), AllocError> {
        tail.name(self)
    }
}

impl<'a> Tail<'a> {
    pub(crate) fn all<T: Part>(&mut self, parts: &'a [T]) -> Result<(), AllocError>
        ensures { IfOk result (λ _. self.new ≡ spell_all T.spell (map T.view parts.now) self.old) }
    {
        for i in (0..parts.len()).rev() {
            parts[i].put(self)?;
        }
        Ok(())
    }

    /// A part that may be absent.
    pub(crate) fn optional<T: Part>(&mut self, part: &'a Option<T>) -> Result<(), AllocError>
        ensures { IfOk result (λ _.
            self.new ≡ spell_option T.spell (option_map T.view part.now) self.old) }
    {
        match part {
            Some(part) => part.put(self),
            None => Ok(()),
        }
    }

    /// Parts, each behind the separator.
    pub(crate) fn more<T: Part>(
        &mut self,
        separator: &'a [u8],
        more: &'a [(Place, T)],
    ) -> Result<(), AllocError>
        ensures { IfOk result (λ _.
            self.new
            ≡ spell_more separator.now T.spell (map (behind_view T.view) more.now) self.old) }
    {
        for i in (0..more.len()).rev() {
            let (place, part) = &more[i];
            part.put(self)?;
            self.symbol(separator, *place)?;
        }
        Ok(())
    }

    pub(crate) fn several<T: Part>(
        &mut self,
        separator: &'a [u8],
        parts: &'a Separated<T>,
    ) -> Result<(), AllocError>
        ensures { IfOk result (λ _.
            self.new
            ≡ spell_several separator.now T.spell (several_view T.view parts.now) self.old) }
    {
        self.more(separator, &parts.more)?;
        parts.first.put(self)
    }

    /// Parts in parentheses.
    pub(crate) fn listed<T: Part>(&mut self, listed: &'a Listed<T>) -> Result<(), AllocError>
        ensures { IfOk result (λ _.
            self.new ≡ spell_listed T.spell (listed_view T.view listed.now) self.old) }
    {
        self.symbol(b")", listed.close)?;
        if let Some(parts) = &listed.parts {
            self.several(b",", parts)?;
        }
        self.symbol(b"(", listed.open)
    }

    /// A keyword, and parts in braces.
    pub(crate) fn group<T: Part>(
        &mut self,
        key: &'a [u8],
        group: &'a Group<T>,
    ) -> Result<(), AllocError>
        ensures { IfOk result (λ _.
            self.new ≡ spell_group key.now T.spell (group_view T.view group.now) self.old) }
    {
        self.symbol(b"}", group.close)?;
        self.all(&group.parts)?;
        self.symbol(b"{", group.open)?;
        self.keyword(key, group.key)
    }
}
