//! Lists that states share until one of them changes its own.
ghost use Rattle.std.specs.Prelude.{◌≡◌, ◌<◌, ◌≤◌, [], ◌∷◌, ◌++◌, length, IfOk, remove};
ghost use Rattle.std.specs.Prelude.{if◌then◌else◌, insert, slice_set};
ghost use Rattle.std.specs.Result.{is_ok};

use std::alloc::{AllocError, Global};
use std::marker::Model;
use std::rc::Rc;

/// What can be made once more.
pub trait Member: Drop {
    /// The same member once more.
    fn copy(&self, alloc: Global) -> Result<Self, AllocError>
        ensures { IfOk result (λ c. c ≡ self.now) };
}

// The members of a list; a clone of it has copies of them.
#[derive(Drop)]
struct Items<T> {
    all: Vec<T>,
}

impl<T> Model for Items<T> {
    ghost use Rattle.std.specs.Prelude.{List};

    ghost Value = { List T };

    ghost view = { λ l. l.all.items };
}

impl<T: Member> Clone for Items<T> {
    ghost use Rattle.std.specs.Prelude.{◌≡◌};

    ghost is_clone = { λ l copy. copy ≡ l };

    fn clone(&self) -> Result<Items<T>, AllocError> {
        Ok(Items {
            all: copy_all(&self.all)?,
        })
    }
}

// Copies of all members.
fn copy_all<T: Member>(all: &Vec<T>) -> Result<Vec<T>, AllocError>
    ensures { IfOk result (λ v. v.items ≡ all.now.items) }
{
    let alloc = *all.allocator();
    let mut copies = Vec::with_capacity(alloc, all.len())?;
    for member in all {
        copies.push(member.copy(alloc)?)?;
    }
    Ok(copies)
}

/// A list that is shared by its copies, until one of them changes. Contracts see its members.
#[derive(Drop)]
pub struct Shared<T> {
    items: Rc<Items<T>>,
}

impl<T> Model for Shared<T> {
    ghost use Rattle.std.specs.Prelude.{List};

    ghost Value = { List T };

    ghost view = { λ s. s.items.value };
}

impl<T: Member> Shared<T> {
    /// The empty list.
    pub fn new(alloc: Global) -> Result<Shared<T>, AllocError>
        ensures { IfOk result (λ s. s ≡ []) }
    {
        Ok(Shared {
            items: Rc::new(
                alloc,
                Items {
                    all: Vec::new(alloc),
                },
            )?,
        })
    }

    /// The list of these members.
    pub fn of(alloc: Global, all: Vec<T>) -> Result<Shared<T>, AllocError>
        ensures { IfOk result (λ s. s ≡ all.items) }
    {
        Ok(Shared {
            items: Rc::new(alloc, Items { all })?,
        })
    }

    /// The members as a slice. It takes no memory.
    pub fn as_slice(&self) -> &[T]
        ensures { result.now ≡ self.now }
    {
        &self.items.all
    }

    /// The same list, which shares its members with this one. It takes no memory.
    pub fn share(&self) -> Result<Shared<T>, AllocError>
        ensures { IfOk result (λ s. s ≡ self.now) }
    {
        Ok(Shared {
            items: self.items.clone()?,
        })
    }

    /// Appends a member. On an error the list is as it was.
    pub fn add(&mut self, member: T) -> Result<(), AllocError>
        ensures { self.new ≡ (if is_ok result then self.old ++ member ∷ [] else self.old) }
    {
        let items = Rc::make_mut(&mut self.items)?;
        items.all.push(member)?;
        Ok(())
    }

    /// Inserts a member at a place, from 0, in front of those from there on. On an error the list
    /// is as it was.
    pub fn insert(&mut self, at: u32, member: T) -> Result<(), AllocError>
        requires { at ≤ length self.old }
        ensures { self.new ≡ (if is_ok result then insert self.old at member else self.old) }
    {
        let items = Rc::make_mut(&mut self.items)?;
        items.all.insert(at as usize, member)?;
        Ok(())
    }

    /// Replaces the member at a place, from 0. On an error the list is as it was.
    pub fn put(&mut self, at: u32, member: T) -> Result<(), AllocError>
        requires { at < length self.old }
        ensures { self.new ≡ (if is_ok result then slice_set self.old at member else self.old) }
    {
        let items = Rc::make_mut(&mut self.items)?;
        items.all[at as usize] = member;
        Ok(())
    }

    /// Removes the member at a place, from 0. On an error the list is as it was.
    pub fn cut(&mut self, at: u32) -> Result<(), AllocError>
        requires { at < length self.old }
        ensures { self.new ≡ (if is_ok result then remove self.old at else self.old) }
    {
        let items = Rc::make_mut(&mut self.items)?;
        drop(items.all.remove(at as usize));
        Ok(())
    }
}
