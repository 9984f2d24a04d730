// The two products of unitaries.rs over lent buffers: a matrix times a matrix, and a matrix times a state. Each call is judged before the first store.
#![tactic(auto)]

ghost use Rattle.book.specs.Answers.{Does};
ghost use Rattle.book.specs.Lent.{before, after, shown};
ghost use Rattle.book.specs.Matrices.{product, product_state};

use book::Answer;
use dots::fill_state;
use matrices::{lengths, side};
use row_sums::fill_product;

// A times B, with A given first, into separate buffers.
pub fn multiply(
    ar: &[f64],
    ai: &[f64],
    br: &[f64],
    bi: &[f64],
    reals: &mut [f64],
    imags: &mut [f64],
    n: u32,
) -> Answer
    ensures { Does (product n (shown ar ai) (shown br bi) (before reals imags)) result (after reals imags) }
{
    let side = side(n)?;
    let size = side * side;
    lengths(ar, ai, size, br, bi, reals, imags, size)?;
    fill_product(ar, ai, br, bi, reals, imags, side);
    Ok(None)
}

// A matrix times a state, into separate buffers.
pub fn apply_unitary(
    ar: &[f64],
    ai: &[f64],
    sr: &[f64],
    si: &[f64],
    reals: &mut [f64],
    imags: &mut [f64],
    n: u32,
) -> Answer
    ensures { Does (product_state n (shown ar ai) (shown sr si) (before reals imags)) result (after reals imags) }
{
    let side = side(n)?;
    lengths(ar, ai, side * side, sr, si, reals, imags, side)?;
    fill_state(ar, ai, sr, si, reals, imags, side);
    Ok(None)
}
