//! The names of variables and rates.
ghost use Rattle.std.specs.Prelude.{◌≡◌, ◌<◌, ◌≤◌, ◌++◌, [], ◌∷◌, length, Some, slice_get, OnOk, OnErr, IfOk, IfSome, map};
ghost use Rattle.it_syntax.specs.NamesViews.{index_of, IsNew, AreNames};
ghost use Rattle.it_space.specs.Spaces.{most_variables, most_rates};

use indexmap::IndexSet;
use it_space::Space;
use std::alloc::{AllocError, Global};
use std::marker::Model;

/// The variables and rates of a question by name, each kind counted from 0 in order of declaration.
pub struct Names {
    alloc: Global,
    variables: IndexSet<Vec<u8>>,
    rates: IndexSet<Vec<u8>>,
}

impl Drop for Names {
    fn drop(self) {
        let Names {
            alloc: _,
            variables: _,
            rates: _,
        } = self;
    }
}

impl Model for Names {
    ghost use Rattle.std.specs.Prelude.{map};
    ghost use Rattle.it_syntax.specs.NamesViews.{NamesView, AreNames};

    ghost Value = { NamesView };

    ghost view = { λ n. record { variables = map (λ v. v.items) n.variables.keys; rates = map (λ v. v.items) n.rates.keys } };

    ghost invariant = { λ n. AreNames (record { variables = map (λ v. v.items) n.variables.keys; rates = map (λ v. v.items) n.rates.keys }) };
}

impl Names {
    /// No names yet.
    pub fn new(alloc: Global) -> Names
        ensures { result ≡ record { variables = []; rates = [] } }
    {
        Names {
            alloc,
            variables: IndexSet::new(alloc),
            rates: IndexSet::new(alloc),
        }
    }

    /// A copy of the names.
    pub fn copy(&self) -> Result<Names, AllocError>
        ensures { IfOk result (λ n. n ≡ self.now) }
    {
        let variables = self.variables.clone()?;
        let rates = self.rates.clone()?;
        Ok(Names {
            alloc: self.alloc,
            variables,
            rates,
        })
    }

    /// Declares `name` as the next variable. If allocation fails, nothing changes.
    pub fn add_variable(&mut self, name: &[u8]) -> Result<(), AllocError>
        requires new { IsNew self.old name.now }
        requires some { 1 ≤ length name.now }
        requires short { length name.now ≤ 16 }
        requires few { length self.old.variables < most_variables }
        ensures added { OnOk result (self.new ≡ record { variables = self.old.variables ++ name.now ∷ []; rates = self.old.rates }) }
        ensures unchanged { OnErr result (self.new ≡ self.old) }
    {
        let name = Vec::from_slice(self.alloc, name)?;
        self.variables.insert(name)?;
        Ok(())
    }

    /// Declares `name` as the next rate. If allocation fails, nothing changes.
    pub fn add_rate(&mut self, name: &[u8]) -> Result<(), AllocError>
        requires new { IsNew self.old name.now }
        requires some { 1 ≤ length name.now }
        requires short { length name.now ≤ 16 }
        requires few { length self.old.rates < most_rates }
        ensures added { OnOk result (self.new ≡ record { variables = self.old.variables; rates = self.old.rates ++ name.now ∷ [] }) }
        ensures unchanged { OnErr result (self.new ≡ self.old) }
    {
        let name = Vec::from_slice(self.alloc, name)?;
        self.rates.insert(name)?;
        Ok(())
    }

    /// The variable named `name`; None exactly where there is none.
    pub fn variable(&self, name: &[u8]) -> Option<u8>
        ensures index { result ≡ index_of self.now.variables name.now }
        ensures within { IfSome result (λ i. i < length self.now.variables) }
        ensures vocabulary { AreNames self.now }
    {
        index_in(&self.variables, name)
    }

    /// The rate named `name`; None exactly where there is none.
    pub fn rate(&self, name: &[u8]) -> Option<u8>
        ensures index { result ≡ index_of self.now.rates name.now }
        ensures within { IfSome result (λ i. i < length self.now.rates) }
        ensures vocabulary { AreNames self.now }
    {
        index_in(&self.rates, name)
    }

    /// The name of variable `i`.
    pub fn variable_name(&self, i: u8) -> &[u8]
        requires { i < length self.now.variables }
        ensures { slice_get self.now.variables i ≡ Some result.now }
    {
        self.variables.as_slice()[i as usize].as_slice()
    }

    /// The name of rate `i`.
    pub fn rate_name(&self, i: u8) -> &[u8]
        requires { i < length self.now.rates }
        ensures { slice_get self.now.rates i ≡ Some result.now }
    {
        self.rates.as_slice()[i as usize].as_slice()
    }

    /// The numbers of variables and of rates.
    pub fn space(&self) -> Space
        ensures counts { result ≡ record { variables = length self.now.variables; rates = length self.now.rates } }
        ensures vocabulary { AreNames self.now }
    {
        Space {
            variables: self.variables.len() as u8,
            rates: self.rates.len() as u8,
        }
    }
}

/// The index of `name` in `names`; None where it isn't among them.
fn index_in(names: &IndexSet<Vec<u8>>, name: &[u8]) -> Option<u8>
    requires { length names.now.keys ≤ 16 }
    ensures index { result ≡ index_of (map (λ v. v.items) names.now.keys) name.now }
    ensures within { IfSome result (λ i. i < length names.now.keys) }
{
    Some(names.get_index_of(name)? as u8)
}
