//! The coefficients of a linear form while it is added up.
ghost use Rattle.std.specs.Prelude.{◌≡◌, ◌+◌, ◌*◌, ◌-◌, ◌^◌, ◌<◌, ◌≤◌, ℕ, ℤ, pos, ◌-ℤ◌, ◌*ℤ◌, neg_ℤ, unsigned_abs, bit_or, length, All, IfOk};
ghost use Rattle.it_space.specs.Rows.{IsCanonical, IsOver, row_mass, value};
ghost use Rattle.it_space.specs.Spaces.{IsSpace, most_coordinates, size_of};
ghost use Rattle.it_syntax.specs.declared.types.Atom.TheVariants.{Mutual};
ghost use Rattle.it_syntax.specs.Meaning.{IsAtomOf, atom_at, side_at, multiplicity};
ghost use Rattle.it_demand.specs.Coefficients.{dense_form, mass, IsFormAdded, signed_by};

use it_space::{Row, Space, Sums, VarSet};
use it_syntax::types::{Atom, Term};
use std::alloc::{AllocError, Global};
use std::marker::Model;

/// The coefficients of a linear form while it is added up: one for each coordinate from 0 on. The one at 0 is that of
/// the empty set, whose entropy is 0.
#[derive(Debug, Drop)]
pub struct Coefficients {
    sums: Sums,
}

impl Model for Coefficients {
    ghost use Rattle.std.specs.Prelude.{List, ℤ};

    ghost Value = { List ℤ };

    ghost view = { λ c. c.sums };
}

impl Coefficients {
    /// The form that is 0.
    pub fn new(alloc: Global, space: Space) -> Result<Coefficients, AllocError>
        requires { IsSpace space }
        ensures complete { IfOk result (λ s. length s ≡ size_of space + 1) }
        ensures few { IfOk result (λ s. length s ≤ most_coordinates + 1) }
        ensures small { IfOk result (λ s. mass s ≡ 0) }
        ensures zero { IfOk result (λ s. (p : ℕ → ℤ) → dense_form s p ≡ pos 0) }
    {
        let sums = Sums::zeros(alloc, space.size() as usize + 1)?;
        Ok(Coefficients { sums })
    }

    /// Adds `times` times the value at `coordinate`.
    pub fn add(&mut self, coordinate: usize, times: i128)
        requires within { coordinate < length self.old }
        requires room { mass self.old + unsigned_abs times < 2 ^ 127 }
        ensures { IsFormAdded self.old self.new (unsigned_abs times) (λ p. times *ℤ p coordinate) }
    {
        // There is room for the sum.
        let Ok(()) = self.sums.add(coordinate, times) else {
            unreachable!()
        };
    }

    /// Adds `times` times the entropy of `set`.
    fn add_set(&mut self, set: VarSet, times: i128)
        requires within { set < length self.old }
        requires room { mass self.old + unsigned_abs times < 2 ^ 127 }
        ensures { IsFormAdded self.old self.new (unsigned_abs times) (λ p. times *ℤ p set) }
    {
        self.add(set.number() as usize, times);
    }

    /// Subtracts `times` times the entropy of `set`.
    fn take_set(&mut self, set: VarSet, times: i128)
        requires within { set < length self.old }
        requires room { mass self.old + unsigned_abs times < 2 ^ 127 }
        ensures { IsFormAdded self.old self.new (unsigned_abs times) (λ p. neg_ℤ times *ℤ p set) }
    {
        self.add_set(set, -times);
    }

    /// Adds `times` times an entropy, a mutual information or a rate.
    pub fn add_atom(&mut self, space: Space, atom: Atom, times: i128)
        requires space { IsSpace space }
        requires atom { IsAtomOf space.variables space.rates atom }
        requires complete { length self.old ≡ size_of space + 1 }
        requires room { mass self.old + 4 * unsigned_abs times < 2 ^ 127 }
        ensures { IsFormAdded self.old self.new (4 * unsigned_abs times) (λ p. times *ℤ atom_at space.variables p atom) }
    {
        match atom {
            Atom::Nothing => {}
            Atom::Entropy { of, given } => self.add_entropy(of, given, times),
            Atom::Mutual { left, right, given } => self.add_mutual(left, right, given, times),
            Atom::Rate(rate) => self.add((1usize << space.variables) + rate as usize, times),
        }
    }

    /// Adds `times` times H(`of`|`given`).
    fn add_entropy(&mut self, of: VarSet, given: VarSet, times: i128)
        requires of { bit_or of given < length self.old }
        requires given { given < length self.old }
        requires room { mass self.old + 2 * unsigned_abs times < 2 ^ 127 }
        ensures { IsFormAdded self.old self.new (2 * unsigned_abs times) (λ p. times *ℤ (p (bit_or of given) -ℤ p given)) }
    {
        self.add_set(of.union(given), times);
        self.take_set(given, times);
    }

    /// Adds `times` times I(`left`;`right`|`given`).
    fn add_mutual(&mut self, left: VarSet, right: VarSet, given: VarSet, times: i128)
        requires left { bit_or left given < length self.old }
        requires right { bit_or right given < length self.old }
        requires both { bit_or (bit_or left right) given < length self.old }
        requires given { given < length self.old }
        requires room { mass self.old + 4 * unsigned_abs times < 2 ^ 127 }
        ensures { IsFormAdded self.old self.new (4 * unsigned_abs times) (λ p. times *ℤ atom_at 0 p (Mutual left right given)) }
    {
        self.add_set(left.union(given), times);
        self.add_set(right.union(given), times);
        self.take_set(left.union(right).union(given), times);
        self.take_set(given, times);
    }

    /// Adds `multiple` times the sum of `terms`, or subtracts it if `negative`; `multiple` is a multiple of their denominators.
    pub fn add_side(&mut self, space: Space, terms: &[Term], multiple: u64, negative: bool)
        requires space { IsSpace space }
        requires atoms { All (λ t. IsAtomOf space.variables space.rates t.atom) terms.now }
        requires denominators { All (λ t. 1 ≤ t.denominator) terms.now }
        requires small { multiple ≤ 2 ^ 32 }
        requires complete { length self.old ≡ size_of space + 1 }
        requires room { mass self.old + 2 ^ 98 * length terms.now < 2 ^ 127 }
        ensures { IsFormAdded self.old self.new (2 ^ 98 * length terms.now) (λ p. signed_by negative (side_at space.variables p multiple terms.now)) }
    {
        for term in terms {
            self.add_atom(space, term.atom, multiplicity(*term, multiple, negative));
        }
    }

    /// The row with these coefficients. The one of the empty set is left out.
    pub fn into_row(self, alloc: Global) -> Result<Row, AllocError>
        requires complete { length self ≤ most_coordinates + 1 }
        requires small { mass self < 2 ^ 127 }
        ensures same { IfOk result (λ row. (p : ℕ → ℤ) → p 0 ≡ pos 0 → value row p ≡ dense_form self p) }
        ensures coordinates { IfOk result (IsOver (length self - 1)) }
        ensures canonical { IfOk result IsCanonical }
        ensures bounded { IfOk result (λ row. row_mass row ≤ mass self) }
    {
        Ok(Row::new(self.sums.terms(alloc, 1)?))
    }
}

/// `number` times `parts`.
fn whole_times(number: u64, parts: u64) -> u128
    requires small { parts ≤ 2 ^ 32 }
    ensures value { result ≡ number * parts }
    ensures small { result < 2 ^ 96 }
{
    number as u128 * parts as u128
}

/// The coefficient of the term's atom in `multiple` times the term, negated if `negative`.
fn multiplicity(term: Term, multiple: u64, negative: bool) -> i128
    requires some { 1 ≤ term.denominator }
    requires small { multiple ≤ 2 ^ 32 }
    ensures value { result ≡ signed_by negative (signed_by term.negative (pos (multiplicity multiple term))) }
    ensures small { unsigned_abs result < 2 ^ 96 }
{
    let number = whole_times(term.number, multiple / term.denominator) as i128;
    if term.negative == negative {
        number
    } else {
        -number
    }
}
