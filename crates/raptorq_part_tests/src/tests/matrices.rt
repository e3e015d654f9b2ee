//! Matrices of bits, the dense and the sparse one through the trait; the matrix of octets; and
//! iterators over rows.
use crate::compare::same;
use raptorq::error::Error;
use raptorq::iterators::OctetIter;
use raptorq::matrix::{BinaryMatrix, DenseBinaryMatrix};
use raptorq::octet::Octet;
use raptorq::octet_matrix::DenseOctetMatrix;
use raptorq::octets::BinaryOctetVec;
use raptorq::sparse_matrix::SparseBinaryMatrix;
use std::alloc::Global;
use std::process::Abort;
use std::test::Fail;

// What is asked of either matrix.
fn asked<T: BinaryMatrix>(rt: &impl Abort, alloc: Global) -> Result<(), Error> {
    steps::<T>(rt, alloc)?;
    replaced_lists::<T>(rt, alloc)?;
    inactive_column::<T>(rt, alloc)?;
    leading_part::<T>(rt, alloc)
}

#[test]
fn the_dense_matrix_and_the_sparse_one(rt: HostRuntime) -> Result<(), Fail> {
    asked::<DenseBinaryMatrix>(&rt, rt.alloc())?;
    asked::<SparseBinaryMatrix>(&rt, rt.alloc())?;
    Ok(())
}

// The ones of a matrix are at these places alone.
fn assert_ones<T: BinaryMatrix>(rt: &impl Abort, matrix: &T, ones: &[(usize, usize)]) {
    for i in 0..matrix.height() {
        for j in 0..matrix.width() {
            let wanted = u8::from(ones.contains(&(i, j)));
            same!(rt; matrix.get(i, j).byte(), wanted, (i, j));
        }
    }
}

// Exchanges, an addition and a copy.
fn steps<T: BinaryMatrix>(rt: &impl Abort, alloc: Global) -> Result<(), Error> {
    let mut matrix = T::new(alloc, 3, 70, 5)?;
    matrix.set(0, 3, Octet::one())?;
    matrix.set(0, 64, Octet::one())?;
    matrix.set(0, 69, Octet::new(7))?;
    matrix.swap_rows(0, 1);
    matrix.swap_columns(3, 10, 1);
    matrix.add_assign_rows(2, 1, 0)?;
    same!(rt; matrix.count_ones(2, 0, 65), 2);
    same!(rt; matrix.get_sub_row_as_octets(2, 65)?.len(), 5);
    assert_ones(
        rt,
        &matrix.clone()?,
        &[(1, 10), (1, 64), (1, 69), (2, 10), (2, 64), (2, 69)],
    );
    Ok(())
}

#[test]
fn ones_of_one_word(rt: HostRuntime) -> Result<(), Fail> {
    let mut matrix = DenseBinaryMatrix::new(rt.alloc(), 1, 64, 0)?;
    matrix.set(0, 63, Octet::one())?;
    let mut ones = matrix.get_row_iter(0, 0, 64);
    same!(rt; ones.clone(rt.alloc())?.count(), 1);
    same!(rt; ones.next(), Some((63, Octet::one())));
    same!(rt; ones.next(), None);
    same!(rt; DenseBinaryMatrix::select_mask(3), 8);
    Ok(())
}

fn replaced_lists<T: BinaryMatrix>(rt: &impl Abort, alloc: Global) -> Result<(), Error> {
    let mut matrix = T::new(alloc, 2, 3, 1)?;
    matrix.set(1, 0, Octet::one())?;
    matrix.set(0, 2, Octet::one())?;
    matrix.enable_column_access_acceleration()?;
    let mut rows = vec![in alloc; 7]?;
    matrix.get_ones_in_column_into(0, 0, 2, &mut rows)?;
    same!(rt; rows.as_slice(), [1].as_slice());
    let mut columns = vec![in alloc; 7]?;
    matrix.query_non_zero_columns_into(0, 2, &mut columns)?;
    same!(rt; columns.as_slice(), [2].as_slice());
    Ok(())
}

// That the boundary is 2 is shown by the calls behind it, which ask for the boundary.
fn inactive_column<T: BinaryMatrix>(rt: &impl Abort, alloc: Global) -> Result<(), Error> {
    let mut matrix = T::new(alloc, 2, 3, 0)?;
    matrix.set(0, 2, Octet::one())?;
    matrix.set(1, 1, Octet::one())?;
    matrix.enable_column_access_acceleration()?;
    same!(rt; matrix.get_ones_in_column(1, 0, 2)?.as_slice(), [1].as_slice());
    matrix.hint_column_dense_and_frozen(2)?;
    same!(rt; matrix.query_non_zero_columns(0, 2)?.as_slice(), [2].as_slice());
    matrix.disable_column_access_acceleration();
    assert_ones(rt, &matrix, &[(0, 2), (1, 1)]);
    Ok(())
}

fn leading_part<T: BinaryMatrix>(rt: &impl Abort, alloc: Global) -> Result<(), Error> {
    let mut matrix = T::new(alloc, 2, 3, 0)?;
    matrix.resize(2, 0)?;
    same!(rt; matrix.height(), 2);
    same!(rt; matrix.width(), 0);
    Ok(())
}

// The rows 29 0 29 and 0 0 29: the second is twice 128, and added to 29 times one bit.
fn summed_rows(alloc: Global) -> Result<DenseOctetMatrix, Error> {
    let mut matrix = DenseOctetMatrix::new(alloc, 2, 3, 0)?;
    let bits = BinaryOctetVec::new(vec![in alloc; 1 << 61]?, 3);
    matrix.fma_sub_row(0, 0, &Octet::new(29), &bits);
    matrix.set(1, 2, Octet::new(128));
    matrix.mul_assign_row(1, &Octet::new(2));
    matrix.fma_rows(0, 1, &Octet::one());
    Ok(matrix)
}

#[test]
fn octet_matrix_rows(rt: HostRuntime) -> Result<(), Fail> {
    let matrix = summed_rows(rt.alloc())?;
    assert_eq!(rt; matrix.height(), 2);
    assert_eq!(rt; matrix.width(), 3);
    same!(rt; matrix.get(0, 0), Octet::new(29));
    same!(rt; matrix.get(0, 2), Octet::new(29));
    Ok(())
}

#[test]
fn exchanges_in_an_octet_matrix(rt: HostRuntime) -> Result<(), Fail> {
    let matrix = summed_rows(rt.alloc())?;
    assert_eq!(rt; matrix.height(), 2);
    assert_eq!(rt; matrix.width(), 3);
    let mut exchanged = matrix.clone()?;
    exchanged.swap_rows(0, 1);
    exchanged.swap_columns(0, 1, 1);
    assert_eq!(rt; exchanged.height(), 2);
    same!(rt; exchanged.get(1, 1), Octet::new(29));
    same!(rt; exchanged.get(0, 2), Octet::new(29));
    same!(rt; matrix.get(0, 1), Octet::zero());
    Ok(())
}

#[test]
fn columns_with_their_bits(rt: HostRuntime) -> Result<(), Fail> {
    let mut columns = OctetIter::new_dense_binary(5, 9, 62, &[1 << 63, 2]);
    same!(rt; columns.next(), Some((5, Octet::zero())));
    same!(rt; columns.next(), Some((6, Octet::one())));
    let mut copy = columns.clone(rt.alloc())?;
    same!(rt; columns.next(), Some((7, Octet::zero())));
    same!(rt; copy.next(), Some((7, Octet::zero())));
    same!(rt; copy.next(), Some((8, Octet::one())));
    same!(rt; copy.next(), None);
    Ok(())
}
