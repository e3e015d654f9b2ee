//! Octets, their tables, and the kernels on rows of them.
ghost use Rattle.std.specs.Prelude.{◌≡◌, length, IfOk, vec_len};

use crate::compare::{holds, same};
use raptorq::octet::{Octet, octet_mul_hi_bits, octet_mul_low_bits, octet_mul_table};
use raptorq::octets::{
    BinaryOctetVec, add_assign, fused_addassign_mul_scalar, fused_addassign_mul_scalar_binary,
    mulassign_scalar,
};
use std::alloc::{AllocError, Global};
use std::process::Abort;
use std::test::Fail;

#[test]
fn octets_are_a_field(rt: HostRuntime) {
    same!(rt; &Octet::new(2) * &Octet::new(128), Octet::new(29));
    same!(rt; &Octet::one() / &Octet::new(2), Octet::new(142));
    same!(rt; Octet::new(2) * Octet::new(128), Octet::new(29));
    same!(rt; Octet::one() / Octet::new(2), Octet::new(142));
    same!(rt; Octet::new(5) + Octet::new(3), Octet::new(6));
    same!(rt; Octet::new(5) - Octet::new(3), Octet::new(6));
    same!(rt; &Octet::new(5) + &Octet::new(3), Octet::new(6));
    same!(rt; Octet::alpha(8), Octet::new(29));
    same!(rt; Octet::alpha(255), Octet::one());
    holds!(rt; Octet::zero() < Octet::one());
    let mut sum = Octet::new(5);
    sum += Octet::new(3);
    sum += &Octet::new(1);
    same!(rt; sum.byte(), 7);
    sum.fma(&Octet::new(2), &Octet::new(128));
    same!(rt; sum.byte(), 26);
}

#[test]
fn tables_hold_products(rt: HostRuntime) {
    let mut all = [[0; 256]; 256];
    octet_mul_table(&mut all);
    same!(rt; all[2][128], 29);
    same!(rt; all[255][0], 0);
    let mut high = [[0; 32]; 256];
    octet_mul_hi_bits(&mut high);
    same!(rt; high[2][24], 29);
    let mut low = [[0; 32]; 256];
    octet_mul_low_bits(&mut low);
    same!(rt; low[2][24], 16);
}

#[test]
fn rows_of_one_value(rt: HostRuntime) {
    let mut scaled = [128; 41];
    mulassign_scalar(&mut scaled, &Octet::new(2));
    same!(rt; scaled.as_slice(), [29; 41].as_slice());
    let mut sum = [1; 67];
    fused_addassign_mul_scalar(&mut sum, &[2; 67], &Octet::new(3));
    same!(rt; sum.as_slice(), [7; 67].as_slice());
    add_assign(&mut sum, &[5; 67]);
    same!(rt; sum.as_slice(), [2; 67].as_slice());
}

#[test]
fn packed_rows_end_with_their_last_word(rt: HostRuntime) -> Result<(), Fail> {
    let ends = BinaryOctetVec::new([1 << 63, 1 << 63].to_vec(rt.alloc())?, 65);
    same!(rt; ends.len(), 65);
    same!(rt; ends.padding_bits(), 63);
    let mut sum = [0; 65];
    fused_addassign_mul_scalar_binary(&mut sum, &ends, &Octet::new(5));
    for i in 0..65usize {
        let expected = if i == 0 || i == 64 { 5 } else { 0 };
        same!(rt; sum[i], expected, i);
    }
    let before = BinaryOctetVec::new([1 << 62, 0].to_vec(rt.alloc())?, 65);
    fused_addassign_mul_scalar_binary(&mut sum, &before, &Octet::new(5));
    for i in 0..65usize {
        let expected = if i == 0 || i == 64 { 5 } else { 0 };
        same!(rt; sum[i], expected, i);
    }
    let first = BinaryOctetVec::new([1 << 61].to_vec(rt.alloc())?, 3);
    same!(rt; first.padding_bits(), 61);
    let mut few = [0; 3];
    fused_addassign_mul_scalar_binary(&mut few, &first, &Octet::new(29));
    same!(rt; few.as_slice(), [29, 0, 0].as_slice());
    same!(rt; BinaryOctetVec::select_mask(5), 32);
    Ok(())
}

#[test]
fn kernels_agree_with_the_operators(rt: HostRuntime) -> Result<(), Fail> {
    for length in 0..131usize {
        for scalar in [0, 1, 2, 255] {
            rows_agree(&rt, rt.alloc(), length, scalar)?;
            packed_rows_agree(&rt, rt.alloc(), length, scalar)?;
        }
    }
    Ok(())
}

fn rows_agree(rt: &impl Abort, alloc: Global, length: usize, scalar: u8) -> Result<(), AllocError> {
    let octets = pattern(alloc, length, 37)?;
    let other = pattern(alloc, length, 101)?;
    let scalar = Octet::new(scalar);
    let mut added = octets.clone()?;
    add_assign(added.as_mut_slice(), other.as_slice());
    let mut scaled = octets.clone()?;
    mulassign_scalar(scaled.as_mut_slice(), &scalar);
    let mut fused = octets.clone()?;
    fused_addassign_mul_scalar(fused.as_mut_slice(), other.as_slice(), &scalar);
    for i in 0..length {
        let x = Octet::new(octets[i]);
        let y = Octet::new(other[i]);
        same!(rt; added[i], (&x + &y).byte());
        same!(rt; scaled[i], (&scalar * &x).byte());
        same!(rt; fused[i], (&x + &(&scalar * &y)).byte());
    }
    Ok(())
}

fn packed_rows_agree(
    rt: &impl Abort,
    alloc: Global,
    length: usize,
    scalar: u8,
) -> Result<(), AllocError> {
    let octets = pattern(alloc, length, 37)?;
    let words = vec![in alloc; 0x9249_2492_4924_9249; length.div_ceil(64)]?;
    let bits = BinaryOctetVec::new(words, length);
    let mut fused = octets.clone()?;
    fused_addassign_mul_scalar_binary(fused.as_mut_slice(), &bits, &Octet::new(scalar));
    bits_are_fused(rt, &octets, &fused, bits.padding_bits(), scalar);
    Ok(())
}

// Each third bit of a word is set: there the scalar was added to an octet.
fn bits_are_fused(rt: &impl Abort, octets: &[u8], fused: &[u8], padding: usize, scalar: u8) {
    for (i, (octet, found)) in octets.iter().zip(fused).enumerate() {
        let set = padding.wrapping_add(i) % 64 % 3 == 0;
        let expected = if set { *octet ^ scalar } else { *octet };
        same!(rt; *found, expected, (i, octets.len()));
    }
}

fn pattern(alloc: Global, length: usize, step: u8) -> Result<Vec<u8>, AllocError>
    ensures { IfOk result (λ v. vec_len v ≡ length) }
{
    let mut octets = vec![in alloc; 0; length]?;
    let mut next = step;
    for octet in octets.iter_mut() {
        *octet = next;
        next = next.wrapping_mul(5).wrapping_add(step);
    }
    Ok(octets)
}
