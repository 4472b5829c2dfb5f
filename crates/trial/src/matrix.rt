// A square of amounts, some missing, and least sums by Floyd–Warshall.
use super::amount::{Amount, lesser, sum};
use std::alloc::{AllocError, Global};

#[derive(Clone, Drop)]
pub struct Matrix {
    rows: Vec<Vec<Option<Amount>>>,
}

impl Matrix {
    pub fn empty(heap: Global, size: usize) -> Result<Matrix, AllocError> {
        let row = vec![in heap; None; size]?;
        Ok(Matrix {
            rows: vec![in heap; row; size]?,
        })
    }

    pub fn size(&self) -> usize {
        self.rows.len()
    }

    pub fn rows(&self) -> &[Vec<Option<Amount>>] {
        self.rows.as_slice()
    }

    pub fn at(&self, i: usize, j: usize) -> Option<Amount> {
        *self.rows.get(i)?.get(j)?
    }

    pub fn put(&mut self, i: usize, j: usize, entry: Option<Amount>) {
        if let Some(row) = self.rows.get_mut(i) {
            if let Some(old) = row.get_mut(j) {
                *old = entry;
            }
        }
    }

    fn has_negative_diagonal(&self) -> bool {
        (0..self.size()).any(|i| self.at(i, i).is_some_and(|sum| sum < Amount::ZERO))
    }

    // Each entry becomes the lesser of itself and the sum by way of k.
    fn lower_through(&mut self, k: usize) -> Result<(), AllocError> {
        let Some(through) = self.rows.get(k) else {
            return Ok(());
        };
        let through = through.clone()?;
        for row in self.rows.iter_mut() {
            lower(row.as_mut_slice(), k, through.as_slice());
        }
        Ok(())
    }

    // Least sums of the walks over the bounds; none where some loop is under zero.
    pub fn least_sums(&self) -> Result<Option<Matrix>, AllocError> {
        let mut sums = self.clone()?;
        for i in 0..self.size() {
            sums.put(i, i, Some(Amount::ZERO));
        }
        for k in 0..self.size() {
            sums.lower_through(k)?;
            if sums.has_negative_diagonal() {
                return Ok(None);
            }
        }
        Ok(Some(sums))
    }
}

fn lower(row: &mut [Option<Amount>], k: usize, through: &[Option<Amount>]) {
    let front = row.get(k).copied().flatten();
    for (entry, back) in row.iter_mut().zip(through) {
        *entry = lesser(*entry, sum(front, *back));
    }
}
