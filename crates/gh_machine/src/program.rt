// A program, and its definitions by their names.
ghost use Rattle.std.specs.Prelude.{◌≡◌, IfOk, option_map};
ghost use Rattle.std.specs.Option.{option_copied};
ghost use Rattle.gh_core.specs.Reading.{term_of, defs_of};
ghost use Rattle.gh_core.specs.Reduce.{defined};

use crate::table::{Key, key, table};
use gh_base::{NoMemory, Origin};
use gh_core::{CoreName, Erased, ErasedTerm};
use std::alloc::Global;
use std::collections::HashMap;
use std::marker::Model;

/// A program with a table of its definitions. Contracts see it as the program.
#[derive(Drop)]
pub struct Program<'a> {
    erased: &'a Erased,
    table: HashMap<Key, &'a ErasedTerm>,
}

impl<'a> Model for Program<'a> {
    ghost use Rattle.gh_core.specs.declared.erased.Erased.{Erased};
    ghost use Rattle.gh_core.specs.contracts.erased.Erased as program;

    ghost Value = { Erased };

    ghost coded = { program.the_row.coded };

    ghost use Rattle.gh_machine.specs.Keys.{IsTable};

    ghost view = { λ p. p.erased.now };

    ghost invariant = { λ p. IsTable p.erased.now.defs p.table };
}

impl<'a> Program<'a> {
    /// The program with the table. Want of memory is the only refusal.
    pub fn new(alloc: Global, erased: &'a Erased) -> Result<Program<'a>, NoMemory>
        ensures { IfOk result (λ p. p ≡ erased.now) }
    {
        let table = table(alloc, erased.defs.as_slice())?;
        Ok(Program { erased, table })
    }

    /// The constructors of the newtypes.
    pub fn newtypes(&self) -> &'a [Origin]
        ensures { result.now ≡ self.now.newtypes }
    {
        self.erased.newtypes.as_slice()
    }

    /// The first definition of this name.
    pub fn definition(&self, name: CoreName) -> Option<&'a ErasedTerm>
        ensures { option_map term_of (option_copied result) ≡ defined (defs_of self.now.defs) name }
    {
        match self.table.get(&key(name)) {
            Some(term) => Some(*term),
            None => None,
        }
    }
}
