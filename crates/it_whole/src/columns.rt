//! The columns of the start.
ghost use Rattle.std.specs.Prelude.{◌≡◌, ◌+◌, ◌<◌, ◌++◌, ◌∷◌, [], length, pos, slice_index_or, IfErr, OnOk, SomeIff};
ghost use Rattle.std.specs.Bool.{OnTrue};
ghost use Rattle.it_whole.specs.ColumnTerms.{multiple_of_term, multiple_of_terms, IsSubmodular, MultipleFits, MultiplesFit, Suits};
ghost use Rattle.it_whole.specs.declared.giving_up.GaveUp.TheVariants.{TooLarge};
ghost use Rattle.it_space.specs.Rows.{value, row_mass};
ghost use Rattle.it_whole.specs.Combinations.{IsPriced};
ghost use Rattle.it_space.specs.Sums.{number_at};
ghost use Rattle.it_number.specs.Limit.{signed_limit};

use crate::giving_up::GaveUp;
use crate::narrow_rows::NarrowRow;
use crate::rows::{AnyRow, WholeRow};
use crate::wide_rows::WideRow;
use it_vectors::{difference_of_sums, plus_product, short_sum};
use std::alloc::{AllocError, Global};
use std::marker::Model;

/// The nonzero entries of a column of the start, as pairs of row and number, by ascending row; or a sum of multiples of such
/// columns, in which rows may repeat.
#[derive(Drop)]
pub struct Column {
    terms: Vec<(usize, i64)>,
    // whether it has four terms with the factors -1, 1, 1 and -1, like the submodularity of entropy, so that an entry needs no product
    submodular: bool,
}

impl Model for Column {
    ghost use Rattle.it_space.specs.Rows.{Terms};

    ghost Value = { Terms };

    ghost view = { λ c. c.terms.items };

    ghost use Rattle.std.specs.Bool.{OnTrue};
    ghost use Rattle.it_whole.specs.ColumnTerms.{IsSubmodular};

    ghost invariant = { λ c. OnTrue c.submodular (IsSubmodular c.terms.items) };
}

/// Whether `terms` are four terms with the factors -1, 1, 1 and -1.
fn is_submodular(terms: &[(usize, i64)]) -> bool
    ensures { OnTrue result (IsSubmodular terms.now) }
{
    terms.len() == 4 && terms[0].1 == -1 && terms[1].1 == 1 && terms[2].1 == 1 && terms[3].1 == -1
}

impl Column {
    /// A column whose entries are all 0. It allocates nothing.
    pub fn empty(alloc: Global) -> Column
        ensures { result ≡ [] }
    {
        Column {
            terms: Vec::new(alloc),
            submodular: false,
        }
    }

    /// Appends the entry `number` of `row`. `Err` if allocation fails.
    pub fn push_entry(&mut self, row: usize, number: i64) -> Result<(), AllocError>
        ensures { OnOk result (self.new ≡ self.old ++ (row, number) ∷ []) }
    {
        self.terms.push((row, number))?;
        self.submodular = is_submodular(self.terms.as_slice());
        Ok(())
    }

    /// Removes all entries, and keeps the allocation.
    pub fn clear(&mut self)
        ensures { self.new ≡ [] }
    {
        self.terms.clear();
        self.submodular = false;
    }

    /// Appends `factor` times entry `i` of `other`.
    #[inline]
    fn push_multiple(&mut self, other: &Column, i: usize, factor: i64) -> Result<(), GaveUp>
        requires { i < length other.now }
        ensures value { OnOk result (self.new ≡ self.old ++ multiple_of_term factor (slice_index_or other.now i (0, pos 0)) ∷ []) }
        ensures fits { OnOk result (MultipleFits factor (slice_index_or other.now i (0, pos 0))) }
        ensures large { IfErr result (λ e. e ≡ TooLarge → ¬ (MultipleFits factor (slice_index_or other.now i (0, pos 0)))) }
    {
        let Some(number) = other.factor(i).checked_mul(factor) else {
            return Err(GaveUp::TooLarge);
        };
        // not tested: a sum of multiples of columns is seldom such a column
        self.submodular = false;
        self.terms.push((other.place(i), number))?;
        Ok(())
    }

    /// Appends `factor` times each entry of `other`. Where it gives up, it may have appended some.
    pub fn add_multiple(&mut self, other: &Column, factor: i64) -> Result<(), GaveUp>
        ensures value { OnOk result (self.new ≡ self.old ++ multiple_of_terms factor other.now) }
        ensures fits { OnOk result (MultiplesFit factor other.now) }
        ensures large { IfErr result (λ e. e ≡ TooLarge → ¬ (MultiplesFit factor other.now)) }
    {
        for i in 0..other.size() {
            self.push_multiple(other, i, factor)?;
        }
        Ok(())
    }

    /// The number of entries.
    fn size(&self) -> usize
        ensures { result ≡ length self.now }
    {
        self.terms.len()
    }

    /// The row of entry `i`.
    #[inline]
    fn place(&self, i: usize) -> usize
        requires { i < length self.now }
        ensures { result ≡ (slice_index_or self.now i (0, pos 0)).0 }
    {
        self.terms[i].0
    }

    /// The number of entry `i`.
    #[inline]
    fn factor(&self, i: usize) -> i64
        requires { i < length self.now }
        ensures { result ≡ (slice_index_or self.now i (0, pos 0)).1 }
    {
        self.terms[i].1
    }

    /// The sum of the absolute values of the entries; `None` unless it is below 2^63.
    pub fn weight(&self) -> Option<u64>
        ensures { SomeIff result (row_mass self.now < signed_limit) (row_mass self.now) }
    {
        let mut sum: u64 = 0;
        for i in 0..self.size() {
            sum = short_sum(sum, self.factor(i).unsigned_abs())?;
        }
        Some(sum)
    }

    /// `sum` plus term `i` of the entry of `row` at this column.
    #[inline]
    fn add_narrow_term(&self, row: &NarrowRow, i: usize, sum: i64) -> i64
        requires suits { Suits self.now row.now.numbers }
        requires place { i < length self.now }
        requires priced { IsPriced self.now row.now.numbers i sum }
        ensures { IsPriced self.now row.now.numbers (i + 1) result }
    {
        plus_product(sum, self.factor(i), row.number(self.place(i)))
    }

    /// The entry of `row`, in 32 bits, at a column of four terms with the factors -1, 1, 1 and -1, as in most columns.
    #[inline(always)]
    fn price_submodular(&self, row: &NarrowRow) -> i64
        requires suits { Suits self.now row.now.numbers }
        requires four { IsSubmodular self.now }
        ensures { result ≡ value self.now (number_at row.now.numbers) }
    {
        difference_of_sums(
            row.number(self.place(1)),
            row.number(self.place(2)),
            row.number(self.place(0)),
            row.number(self.place(3)),
        )
    }

    /// The entry of `row`, in 32 bits, at this column, as a numerator over the row's denominator.
    #[inline(always)]
    #[tactic(auto, using(crate::proofs::Pricing::priced_none, crate::proofs::Pricing::priced_all))]
    fn price_narrow(&self, row: &NarrowRow) -> i64
        requires suits { Suits self.now row.now.numbers }
        ensures { result ≡ value self.now (number_at row.now.numbers) }
    {
        if self.submodular {
            return self.price_submodular(row);
        }
        let mut sum: i64 = 0;
        for i in 0..self.size() {
            sum = self.add_narrow_term(row, i, sum);
        }
        sum
    }

    /// `sum` plus term `i` of the entry of `row` at this column.
    #[inline]
    fn add_wide_term(&self, row: &WideRow, i: usize, sum: i64) -> i64
        requires suits { Suits self.now row.now.numbers }
        requires place { i < length self.now }
        requires priced { IsPriced self.now row.now.numbers i sum }
        ensures { IsPriced self.now row.now.numbers (i + 1) result }
    {
        plus_product(sum, self.factor(i), row.number(self.place(i)))
    }

    /// The entry of `row`, in 64 bits, at a column of four terms, as in most columns.
    #[inline]
    #[tactic(auto, using(crate::proofs::Pricing::priced_none, crate::proofs::Pricing::priced_all))]
    fn price_wide_four(&self, row: &WideRow) -> i64
        requires suits { Suits self.now row.now.numbers }
        requires four { length self.now ≡ 4 }
        ensures { result ≡ value self.now (number_at row.now.numbers) }
    {
        let one = self.add_wide_term(row, 0, 0);
        let two = self.add_wide_term(row, 1, one);
        let three = self.add_wide_term(row, 2, two);
        self.add_wide_term(row, 3, three)
    }

    /// The entry of `row`, in 64 bits, at this column, as a numerator over the row's denominator.
    #[inline(always)]
    #[tactic(auto, using(crate::proofs::Pricing::priced_none, crate::proofs::Pricing::priced_all))]
    fn price_wide(&self, row: &WideRow) -> i64
        requires suits { Suits self.now row.now.numbers }
        ensures { result ≡ value self.now (number_at row.now.numbers) }
    {
        if self.size() == 4 {
            return self.price_wide_four(row);
        }
        let mut sum: i64 = 0;
        for i in 0..self.size() {
            sum = self.add_wide_term(row, i, sum);
        }
        sum
    }

    /// The entry of `row` at this column, as a numerator over the row's denominator: the sum of each term's factor times the row's
    /// number at the term's place.
    #[inline(always)]
    pub fn price(&self, row: &WholeRow) -> i64
        requires suits { Suits self.now row.now.numbers }
        ensures { result ≡ value self.now (number_at row.now.numbers) }
    {
        match row.any_width() {
            AnyRow::Narrow(row) => self.price_narrow(row),
            AnyRow::Wide(row) => self.price_wide(row),
        }
    }
}
