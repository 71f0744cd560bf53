//! Lines that are gathered by the functions and statements to which they belong.
ghost use Rattle.std.specs.Prelude.{◌≡◌, ◌++◌, ◌<◌, ℕ, [], IfOk, length};
ghost use Rattle.cap_outline.specs.Gathered.{gathered_at, line_if, line_if_both, lines_at};

use std::alloc::{AllocError, Global};
use std::marker::Model;

/// The lines of a function's statements, by the statements' numbers.
#[derive(Drop)]
pub(crate) struct Lines {
    statements: Vec<Vec<u8>>,
}

impl Model for Lines {
    ghost use Rattle.std.specs.Prelude.{List, ℕ, map};

    ghost Value = { List (List ℕ) };

    ghost view = { λ l. map (λ t. t.items) l.statements.items };
}

impl Lines {
    /// No lines. It takes no memory.
    pub fn new(alloc: Global) -> Lines
        ensures { result ≡ [] }
    {
        Lines {
            statements: Vec::new(alloc),
        }
    }

    // Makes room for the lines of a statement.
    fn reach(&mut self, number: usize) -> Result<(), AllocError>
        ensures there { IfOk result (λ _. number < length self.new) }
        ensures same { IfOk result (λ _. (k : ℕ) → lines_at self.new k ≡ lines_at self.old k) }
    {
        let alloc = *self.statements.allocator();
        'room: while self.statements.len() <= number {
            self.statements.push(Vec::new(alloc))?;
        }
        Ok(())
    }

    /// Puts a line behind those of a statement.
    pub fn put(&mut self, number: usize, line: &[u8]) -> Result<(), AllocError>
        ensures { IfOk result (λ _. (k : ℕ) → lines_at self.new k
            ≡ lines_at self.old k ++ line_if number k line.now) }
    {
        self.reach(number)?;
        self.statements[number].extend_from_slice(line)
    }

    /// The lines of a statement.
    pub fn at(&self, number: usize) -> &[u8]
        ensures { result.now ≡ lines_at self.now number }
    {
        match self.statements.get(number) {
            None => &[],
            Some(lines) => lines.as_slice(),
        }
    }
}

/// The lines of a program's statements, by the functions' numbers.
#[derive(Drop)]
pub(crate) struct Gathered {
    functions: Vec<Lines>,
}

impl Model for Gathered {
    ghost use Rattle.std.specs.Prelude.{List, ℕ};

    ghost Value = { List (List (List ℕ)) };

    ghost view = { λ g. g.functions.items };
}

impl Gathered {
    /// No lines. It takes no memory.
    pub fn new(alloc: Global) -> Gathered
        ensures { result ≡ [] }
    {
        Gathered {
            functions: Vec::new(alloc),
        }
    }

    // Makes room for the lines of a function.
    fn reach(&mut self, number: usize) -> Result<(), AllocError>
        ensures there { IfOk result (λ _. number < length self.new) }
        ensures same { IfOk result
            (λ _. (f k : ℕ) → gathered_at self.new f k ≡ gathered_at self.old f k) }
    {
        let alloc = *self.functions.allocator();
        'room: while self.functions.len() <= number {
            self.functions.push(Lines::new(alloc))?;
        }
        Ok(())
    }

    /// Puts a line behind those of a statement of a function.
    pub fn put(&mut self, function: usize, number: usize, line: &[u8]) -> Result<(), AllocError>
        ensures { IfOk result (λ _. (f k : ℕ) → gathered_at self.new f k
            ≡ gathered_at self.old f k ++ line_if_both function number f k line.now) }
    {
        self.reach(function)?;
        self.functions[function].put(number, line)
    }

    /// The lines of a statement of a function.
    pub fn at(&self, function: usize, number: usize) -> &[u8]
        ensures { result.now ≡ gathered_at self.now function number }
    {
        match self.functions.get(function) {
            None => &[],
            Some(lines) => lines.at(number),
        }
    }
}
