//! A state of a derivation: variables, rows, locals, cells, facts of regions and guards.
ghost use Rattle.std.specs.Prelude.{◌≡◌, ◌<◌, ◌≤◌, [], ◌∷◌, ◌++◌, length, IfOk, if◌then◌else◌};
ghost use Rattle.std.specs.Prelude.{insert, remove};
ghost use Rattle.std.specs.Prelude.{◌↔◌, IsTrue, slice_set};
ghost use Rattle.std.specs.Result.{is_ok};
ghost use Rattle.cap_goal_spec.specs.States.{longest_list};
ghost use Rattle.cap_goal_spec.specs.Roots.{empty_state};
ghost use Rattle.cap_goal_spec.specs.Fits.{HasRoom};

use crate::fact::{Env, Fact};
use crate::shared::Shared;
use cap_gsolve::Piece;
use cap_lin::{Row, Sort, Term};
use std::alloc::{AllocError, Global};
use std::marker::Model;

/// No list of a state is longer.
pub const LONGEST_LIST: usize = 100_000_000;

/// A symbolic state: nine lists, each of at most 100,000,000 members. Its copies share the lists
/// that they have in common. Each list has four calls: one lends it, and three append, replace and
/// remove a member; into the guards a fifth inserts one. On an error a state is as it was.
pub struct State {
    sorts: Shared<Sort>,
    rows: Shared<Row>,
    store: Shared<Term>,
    cells: Shared<(Term, Term)>,
    facts: Shared<Fact>,
    guards: Shared<Piece>,
    before: Shared<Piece>,
    opened: Shared<Fact>,
    envs: Shared<Env>,
}

impl Drop for State {
    fn drop(self) {
        let State {
            sorts: _,
            rows: _,
            store: _,
            cells: _,
            facts: _,
            guards: _,
            before: _,
            opened: _,
            envs: _,
        } = self;
    }
}

impl Model for State {
    ghost use Rattle.cap_goal_spec.specs.States.{PlainState};

    ghost Value = { PlainState };

    ghost view = { λ s. record {
      sorts = s.sorts;
      rows = s.rows;
      store = s.store;
      cells = s.cells;
      facts = s.facts;
      guards = s.guards;
      before = s.before;
      opened = s.opened;
      envs = s.envs;
    } };
}

impl State {
    /// The state of empty lists.
    pub fn new(alloc: Global) -> Result<State, AllocError>
        ensures { IfOk result (λ s. s ≡ empty_state) }
    {
        Ok(State {
            sorts: Shared::new(alloc)?,
            rows: Shared::new(alloc)?,
            store: Shared::new(alloc)?,
            cells: Shared::new(alloc)?,
            facts: Shared::new(alloc)?,
            guards: Shared::new(alloc)?,
            before: Shared::new(alloc)?,
            opened: Shared::new(alloc)?,
            envs: Shared::new(alloc)?,
        })
    }

    /// An equal state, which shares its lists with this one. It takes no memory.
    pub fn copy(&self) -> Result<State, AllocError>
        ensures { IfOk result (λ s. s ≡ self.now) }
    {
        Ok(State {
            sorts: self.sorts.share()?,
            rows: self.rows.share()?,
            store: self.store.share()?,
            cells: self.cells.share()?,
            facts: self.facts.share()?,
            guards: self.guards.share()?,
            before: self.before.share()?,
            opened: self.opened.share()?,
            envs: self.envs.share()?,
        })
    }

    /// Whether no list is longer than `LONGEST_LIST`. It takes no memory.
    pub fn has_room(&self) -> bool
        ensures { IsTrue result ↔ HasRoom self.now }
    {
        self.sorts().len() <= LONGEST_LIST
            && self.rows().len() <= LONGEST_LIST
            && self.store().len() <= LONGEST_LIST
            && self.cells().len() <= LONGEST_LIST
            && self.facts().len() <= LONGEST_LIST
            && self.guards().len() <= LONGEST_LIST
            && self.before().len() <= LONGEST_LIST
            && self.opened().len() <= LONGEST_LIST
            && self.envs().len() <= LONGEST_LIST
    }

    /// Lends what sort each variable is of; a fresh variable is the next number. It takes no
    /// memory.
    pub fn sorts(&self) -> &[Sort]
        ensures { result.now ≡ self.now.sorts }
    {
        self.sorts.as_slice()
    }

    /// Appends a sort to `sorts`.
    pub fn add_sorts(&mut self, member: Sort) -> Result<(), AllocError>
        requires { length self.old.sorts < longest_list }
        ensures { self.new ≡ (if is_ok result
            then record self.old { sorts = self.old.sorts ++ member ∷ [] }
            else self.old) }
    {
        self.sorts.add(member)
    }

    /// Replaces the sort at a place of `sorts`, from 0.
    pub fn put_sorts(&mut self, at: u32, member: Sort) -> Result<(), AllocError>
        requires { at < length self.old.sorts }
        ensures { self.new ≡ (if is_ok result
            then record self.old { sorts = slice_set self.old.sorts at member }
            else self.old) }
    {
        self.sorts.put(at, member)
    }

    /// Removes the sort at a place of `sorts`, from 0.
    pub fn cut_sorts(&mut self, at: u32) -> Result<(), AllocError>
        requires { at < length self.old.sorts }
        ensures { self.new ≡ (if is_ok result
            then record self.old { sorts = remove self.old.sorts at }
            else self.old) }
    {
        self.sorts.cut(at)
    }

    /// Lends what is known. It takes no memory.
    pub fn rows(&self) -> &[Row]
        ensures { result.now ≡ self.now.rows }
    {
        self.rows.as_slice()
    }

    /// Appends a row to `rows`.
    pub fn add_rows(&mut self, member: Row) -> Result<(), AllocError>
        requires { length self.old.rows < longest_list }
        ensures { self.new ≡ (if is_ok result
            then record self.old { rows = self.old.rows ++ member ∷ [] }
            else self.old) }
    {
        self.rows.add(member)
    }

    /// Replaces the row at a place of `rows`, from 0.
    pub fn put_rows(&mut self, at: u32, member: Row) -> Result<(), AllocError>
        requires { at < length self.old.rows }
        ensures { self.new ≡ (if is_ok result
            then record self.old { rows = slice_set self.old.rows at member }
            else self.old) }
    {
        self.rows.put(at, member)
    }

    /// Removes the row at a place of `rows`, from 0.
    pub fn cut_rows(&mut self, at: u32) -> Result<(), AllocError>
        requires { at < length self.old.rows }
        ensures { self.new ≡ (if is_ok result
            then record self.old { rows = remove self.old.rows at }
            else self.old) }
    {
        self.rows.cut(at)
    }

    /// Lends the values of parameters and locals. It takes no memory.
    pub fn store(&self) -> &[Term]
        ensures { result.now ≡ self.now.store }
    {
        self.store.as_slice()
    }

    /// Appends a value to `store`.
    pub fn add_store(&mut self, member: Term) -> Result<(), AllocError>
        requires { length self.old.store < longest_list }
        ensures { self.new ≡ (if is_ok result
            then record self.old { store = self.old.store ++ member ∷ [] }
            else self.old) }
    {
        self.store.add(member)
    }

    /// Replaces the value at a place of `store`, from 0.
    pub fn put_store(&mut self, at: u32, member: Term) -> Result<(), AllocError>
        requires { at < length self.old.store }
        ensures { self.new ≡ (if is_ok result
            then record self.old { store = slice_set self.old.store at member }
            else self.old) }
    {
        self.store.put(at, member)
    }

    /// Removes the value at a place of `store`, from 0.
    pub fn cut_store(&mut self, at: u32) -> Result<(), AllocError>
        requires { at < length self.old.store }
        ensures { self.new ≡ (if is_ok result
            then record self.old { store = remove self.old.store at }
            else self.old) }
    {
        self.store.cut(at)
    }

    /// Lends the addresses of cells, and what they hold. It takes no memory.
    pub fn cells(&self) -> &[(Term, Term)]
        ensures { result.now ≡ self.now.cells }
    {
        self.cells.as_slice()
    }

    /// Appends a cell to `cells`.
    pub fn add_cells(&mut self, member: (Term, Term)) -> Result<(), AllocError>
        requires { length self.old.cells < longest_list }
        ensures { self.new ≡ (if is_ok result
            then record self.old { cells = self.old.cells ++ member ∷ [] }
            else self.old) }
    {
        self.cells.add(member)
    }

    /// Replaces the cell at a place of `cells`, from 0.
    pub fn put_cells(&mut self, at: u32, member: (Term, Term)) -> Result<(), AllocError>
        requires { at < length self.old.cells }
        ensures { self.new ≡ (if is_ok result
            then record self.old { cells = slice_set self.old.cells at member }
            else self.old) }
    {
        self.cells.put(at, member)
    }

    /// Removes the cell at a place of `cells`, from 0.
    pub fn cut_cells(&mut self, at: u32) -> Result<(), AllocError>
        requires { at < length self.old.cells }
        ensures { self.new ≡ (if is_ok result
            then record self.old { cells = remove self.old.cells at }
            else self.old) }
    {
        self.cells.cut(at)
    }

    /// Lends what is known of regions. It takes no memory.
    pub fn facts(&self) -> &[Fact]
        ensures { result.now ≡ self.now.facts }
    {
        self.facts.as_slice()
    }

    /// Appends a fact to `facts`.
    pub fn add_facts(&mut self, member: Fact) -> Result<(), AllocError>
        requires { length self.old.facts < longest_list }
        ensures { self.new ≡ (if is_ok result
            then record self.old { facts = self.old.facts ++ member ∷ [] }
            else self.old) }
    {
        self.facts.add(member)
    }

    /// Replaces the fact at a place of `facts`, from 0.
    pub fn put_facts(&mut self, at: u32, member: Fact) -> Result<(), AllocError>
        requires { at < length self.old.facts }
        ensures { self.new ≡ (if is_ok result
            then record self.old { facts = slice_set self.old.facts at member }
            else self.old) }
    {
        self.facts.put(at, member)
    }

    /// Removes the fact at a place of `facts`, from 0.
    pub fn cut_facts(&mut self, at: u32) -> Result<(), AllocError>
        requires { at < length self.old.facts }
        ensures { self.new ≡ (if is_ok result
            then record self.old { facts = remove self.old.facts at }
            else self.old) }
    {
        self.facts.cut(at)
    }

    /// Lends the guards that are held. It takes no memory.
    pub fn guards(&self) -> &[Piece]
        ensures { result.now ≡ self.now.guards }
    {
        self.guards.as_slice()
    }

    /// Appends a piece to `guards`.
    pub fn add_guards(&mut self, member: Piece) -> Result<(), AllocError>
        requires { length self.old.guards < longest_list }
        ensures { self.new ≡ (if is_ok result
            then record self.old { guards = self.old.guards ++ member ∷ [] }
            else self.old) }
    {
        self.guards.add(member)
    }

    /// Replaces the piece at a place of `guards`, from 0.
    pub fn put_guards(&mut self, at: u32, member: Piece) -> Result<(), AllocError>
        requires { at < length self.old.guards }
        ensures { self.new ≡ (if is_ok result
            then record self.old { guards = slice_set self.old.guards at member }
            else self.old) }
    {
        self.guards.put(at, member)
    }

    /// Inserts a piece at a place of `guards`, from 0, in front of those from there on.
    pub fn insert_guards(&mut self, at: u32, member: Piece) -> Result<(), AllocError>
        requires place { at ≤ length self.old.guards }
        requires room { length self.old.guards < longest_list }
        ensures { self.new ≡ (if is_ok result
            then record self.old { guards = insert self.old.guards at member }
            else self.old) }
    {
        self.guards.insert(at, member)
    }

    /// Removes the piece at a place of `guards`, from 0.
    pub fn cut_guards(&mut self, at: u32) -> Result<(), AllocError>
        requires { at < length self.old.guards }
        ensures { self.new ≡ (if is_ok result
            then record self.old { guards = remove self.old.guards at }
            else self.old) }
    {
        self.guards.cut(at)
    }

    /// Lends the guards when the first region of this step was opened; outside of a step there are
    /// none. It takes no memory.
    pub fn before(&self) -> &[Piece]
        ensures { result.now ≡ self.now.before }
    {
        self.before.as_slice()
    }

    /// Appends a piece to `before`.
    pub fn add_before(&mut self, member: Piece) -> Result<(), AllocError>
        requires { length self.old.before < longest_list }
        ensures { self.new ≡ (if is_ok result
            then record self.old { before = self.old.before ++ member ∷ [] }
            else self.old) }
    {
        self.before.add(member)
    }

    /// Replaces the piece at a place of `before`, from 0.
    pub fn put_before(&mut self, at: u32, member: Piece) -> Result<(), AllocError>
        requires { at < length self.old.before }
        ensures { self.new ≡ (if is_ok result
            then record self.old { before = slice_set self.old.before at member }
            else self.old) }
    {
        self.before.put(at, member)
    }

    /// Removes the piece at a place of `before`, from 0.
    pub fn cut_before(&mut self, at: u32) -> Result<(), AllocError>
        requires { at < length self.old.before }
        ensures { self.new ≡ (if is_ok result
            then record self.old { before = remove self.old.before at }
            else self.old) }
    {
        self.before.cut(at)
    }

    /// Lends the opened regions, with their states before the step. It takes no memory.
    pub fn opened(&self) -> &[Fact]
        ensures { result.now ≡ self.now.opened }
    {
        self.opened.as_slice()
    }

    /// Appends an opened region to `opened`.
    pub fn add_opened(&mut self, member: Fact) -> Result<(), AllocError>
        requires { length self.old.opened < longest_list }
        ensures { self.new ≡ (if is_ok result
            then record self.old { opened = self.old.opened ++ member ∷ [] }
            else self.old) }
    {
        self.opened.add(member)
    }

    /// Replaces the opened region at a place of `opened`, from 0.
    pub fn put_opened(&mut self, at: u32, member: Fact) -> Result<(), AllocError>
        requires { at < length self.old.opened }
        ensures { self.new ≡ (if is_ok result
            then record self.old { opened = slice_set self.old.opened at member }
            else self.old) }
    {
        self.opened.put(at, member)
    }

    /// Removes the opened region at a place of `opened`, from 0.
    pub fn cut_opened(&mut self, at: u32) -> Result<(), AllocError>
        requires { at < length self.old.opened }
        ensures { self.new ≡ (if is_ok result
            then record self.old { opened = remove self.old.opened at }
            else self.old) }
    {
        self.opened.cut(at)
    }

    /// Lends what the names of assertions stand for. It takes no memory.
    pub fn envs(&self) -> &[Env]
        ensures { result.now ≡ self.now.envs }
    {
        self.envs.as_slice()
    }

    /// Appends an environment to `envs`.
    pub fn add_envs(&mut self, member: Env) -> Result<(), AllocError>
        requires { length self.old.envs < longest_list }
        ensures { self.new ≡ (if is_ok result
            then record self.old { envs = self.old.envs ++ member ∷ [] }
            else self.old) }
    {
        self.envs.add(member)
    }

    /// Replaces the environment at a place of `envs`, from 0.
    pub fn put_envs(&mut self, at: u32, member: Env) -> Result<(), AllocError>
        requires { at < length self.old.envs }
        ensures { self.new ≡ (if is_ok result
            then record self.old { envs = slice_set self.old.envs at member }
            else self.old) }
    {
        self.envs.put(at, member)
    }

    /// Removes the environment at a place of `envs`, from 0.
    pub fn cut_envs(&mut self, at: u32) -> Result<(), AllocError>
        requires { at < length self.old.envs }
        ensures { self.new ≡ (if is_ok result
            then record self.old { envs = remove self.old.envs at }
            else self.old) }
    {
        self.envs.cut(at)
    }
}
