// Bindings of different names.
ghost use Rattle.std.specs.Prelude.{◌≡◌, ◌++◌, ◌∷◌, [], ℕ, Option, Some, None, if◌then◌else◌, nat_eq, IfOk};
ghost use Rattle.std.specs.List.{list_any};
ghost use Rattle.gh_tree_form.specs.Form.{has_name};

use gh_base::{ListOf, NameId, NoMemory};
use gh_bindings::Binding;
use indexmap::IndexSet;
use std::alloc::Global;
use std::marker::Model;

/// Bindings of different names, in their order. Contracts see the list of them.
#[derive(Drop)]
pub struct Bindings {
    names: IndexSet<u32>,
    items: ListOf<Binding>,
}

impl Model for Bindings {
    ghost use Rattle.std.specs.Prelude.{List};
    ghost use Rattle.gh_bindings.specs.declared.binding.Binding.{Binding};
    ghost use Rattle.gh_tree_form.specs.Listed.{IsListed};

    ghost Value = { List Binding };

    ghost view = { λ b. b.items };

    ghost invariant = { λ b. IsListed b.names b.items };
}

impl Bindings {
    /// No bindings. It takes no memory.
    pub fn new(alloc: Global) -> Bindings
        ensures { result ≡ [] }
    {
        Bindings {
            names: IndexSet::new(alloc),
            items: ListOf::new(alloc),
        }
    }

    /// The bindings in their order. It takes no memory.
    pub fn as_slice(&self) -> &[Binding]
        ensures { result.now ≡ self.now }
    {
        self.items.as_slice()
    }

    /// Whether a name has a binding. It takes no memory.
    pub fn has(&self, name: NameId) -> bool
        ensures { result ≡ has_name self.now name }
    {
        self.names.contains(&name.0)
    }

    /// The bindings with one more at the end, or none where its name is bound already.
    pub fn with(self, binding: Binding) -> Result<Option<Bindings>, NoMemory>
        ensures { IfOk result (λ more. more ≡ (if has_name self binding.name then None else Some (self ++ binding ∷ []))) }
    {
        let Bindings { names, items } = self;
        let mut names = names;
        let mut items = items;
        if names.insert(binding.name.0)? {
            items.push(binding)?;
            return Ok(Some(Bindings { names, items }));
        }
        Ok(None)
    }
}
