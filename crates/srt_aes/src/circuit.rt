//! The S-box as a circuit of 115 gates on vectors (Boyar and Peralta, "A depth-16 circuit for the AES S-box", 2011): no table,
//! no branch, so its time doesn't depend on what it works on.

ghost use Rattle.std.specs.Prelude.{◌≡◌, ℕ, List};
ghost use Rattle.srt_aes.specs.inside.Planes.{joined};
ghost use Rattle.srt_aes.specs.inside.Circuit.{on_words, linear_layer, products, inverse, sums_of_inverse, outputs, last_layer, substituted};

use std::simd::prelude::*;

/// SubBytes() of all bytes whose bits are in these planes, the lowest bits first (FIPS 197).
#[inline(always)]
pub(crate) fn substitute(bits: [u64x2; 8]) -> [u64x2; 8]
    ensures { (a b : List ℕ) → bits ≡ joined 8 a b → result ≡ joined 8 (substituted on_words a) (substituted on_words b) }
{
    let sums = linear_layer(bits);
    let inverse = sums_of_inverse(inverse(products(sums)));
    last_layer(outputs(sums, inverse))
}

/// The first linear layer: x7 and the 21 sums y1 to y21 of the input's bits.
#[inline(always)]
fn linear_layer(bits: [u64x2; 8]) -> [u64x2; 22]
    ensures { (a b : List ℕ) → bits ≡ joined 8 a b → result ≡ joined 22 (linear_layer on_words a) (linear_layer on_words b) }
{
    let x0 = bits[7];
    let x1 = bits[6];
    let x2 = bits[5];
    let x3 = bits[4];
    let x4 = bits[3];
    let x5 = bits[2];
    let x6 = bits[1];
    let x7 = bits[0];
    let y14 = x3 ^ x5;
    let y13 = x0 ^ x6;
    let y9 = x0 ^ x3;
    let y8 = x0 ^ x5;
    let t0 = x1 ^ x2;
    let y1 = t0 ^ x7;
    let y4 = y1 ^ x3;
    let y12 = y13 ^ y14;
    let y2 = y1 ^ x0;
    let y5 = y1 ^ x6;
    let y3 = y5 ^ y8;
    let t1 = x4 ^ y12;
    let y15 = t1 ^ x5;
    let y20 = t1 ^ x1;
    let y6 = y15 ^ x7;
    let y10 = y15 ^ t0;
    let y11 = y20 ^ y9;
    let y7 = x7 ^ y11;
    let y17 = y10 ^ y11;
    let y19 = y10 ^ y8;
    let y16 = t0 ^ y11;
    let y21 = y13 ^ y16;
    let y18 = x0 ^ y16;
    [
        x7, y1, y2, y3, y4, y5, y6, y7, y8, y9, y10, y11, y12, y13, y14, y15, y16, y17, y18, y19,
        y20, y21,
    ]
}

/// T21 to t24: an element of GF(2^4), of the sums of the first layer.
#[inline(always)]
fn products(sums: [u64x2; 22]) -> [u64x2; 4]
    ensures { (a b : List ℕ) → sums ≡ joined 22 a b → result ≡ joined 4 (products on_words a) (products on_words b) }
{
    let x7 = sums[0];
    let y1 = sums[1];
    let y2 = sums[2];
    let y3 = sums[3];
    let y4 = sums[4];
    let y5 = sums[5];
    let y6 = sums[6];
    let y7 = sums[7];
    let y8 = sums[8];
    let y9 = sums[9];
    let y10 = sums[10];
    let y11 = sums[11];
    let y12 = sums[12];
    let y13 = sums[13];
    let y14 = sums[14];
    let y15 = sums[15];
    let y16 = sums[16];
    let y17 = sums[17];
    let y18 = sums[18];
    let y19 = sums[19];
    let y20 = sums[20];
    let y21 = sums[21];
    let t2 = y12 & y15;
    let t3 = y3 & y6;
    let t4 = t3 ^ t2;
    let t5 = y4 & x7;
    let t6 = t5 ^ t2;
    let t7 = y13 & y16;
    let t8 = y5 & y1;
    let t9 = t8 ^ t7;
    let t10 = y2 & y7;
    let t11 = t10 ^ t7;
    let t12 = y9 & y11;
    let t13 = y14 & y17;
    let t14 = t13 ^ t12;
    let t15 = y8 & y10;
    let t16 = t15 ^ t12;
    let t17 = t4 ^ t14;
    let t18 = t6 ^ t16;
    let t19 = t9 ^ t14;
    let t20 = t11 ^ t16;
    let t21 = t17 ^ y20;
    let t22 = t18 ^ y19;
    let t23 = t19 ^ y21;
    let t24 = t20 ^ y18;
    [t21, t22, t23, t24]
}

/// T29, t33, t37 and t40: its inverse in GF(2^4).
#[inline(always)]
fn inverse(element: [u64x2; 4]) -> [u64x2; 4]
    ensures { (a b : List ℕ) → element ≡ joined 4 a b → result ≡ joined 4 (inverse on_words a) (inverse on_words b) }
{
    let t21 = element[0];
    let t22 = element[1];
    let t23 = element[2];
    let t24 = element[3];
    let t25 = t21 ^ t22;
    let t26 = t21 & t23;
    let t27 = t24 ^ t26;
    let t28 = t25 & t27;
    let t29 = t28 ^ t22;
    let t30 = t23 ^ t24;
    let t31 = t22 ^ t26;
    let t32 = t31 & t30;
    let t33 = t32 ^ t24;
    let t34 = t23 ^ t33;
    let t35 = t27 ^ t33;
    let t36 = t24 & t35;
    let t37 = t36 ^ t34;
    let t38 = t27 ^ t36;
    let t39 = t29 & t38;
    let t40 = t25 ^ t39;
    [t29, t33, t37, t40]
}

/// T29, t33, t37, t40 and the sums t41 to t45 of them.
#[inline(always)]
fn sums_of_inverse(inverse: [u64x2; 4]) -> [u64x2; 9]
    ensures { (a b : List ℕ) → inverse ≡ joined 4 a b → result ≡ joined 9 (sums_of_inverse on_words a) (sums_of_inverse on_words b) }
{
    let t29 = inverse[0];
    let t33 = inverse[1];
    let t37 = inverse[2];
    let t40 = inverse[3];
    let t41 = t40 ^ t37;
    let t42 = t29 ^ t33;
    let t43 = t29 ^ t40;
    let t44 = t33 ^ t37;
    let t45 = t42 ^ t41;
    [t29, t33, t37, t40, t41, t42, t43, t44, t45]
}

/// Z0 to z17, of the sums of the first layer and of the inverse.
#[inline(always)]
fn outputs(sums: [u64x2; 22], inverse: [u64x2; 9]) -> [u64x2; 18]
    ensures { (a b s t : List ℕ) → sums ≡ joined 22 a b → inverse ≡ joined 9 s t →
        result ≡ joined 18 (outputs on_words a s) (outputs on_words b t) }
{
    let x7 = sums[0];
    let y1 = sums[1];
    let y2 = sums[2];
    let y3 = sums[3];
    let y4 = sums[4];
    let y5 = sums[5];
    let y6 = sums[6];
    let y7 = sums[7];
    let y8 = sums[8];
    let y9 = sums[9];
    let y10 = sums[10];
    let y11 = sums[11];
    let y12 = sums[12];
    let y13 = sums[13];
    let y14 = sums[14];
    let y15 = sums[15];
    let y16 = sums[16];
    let y17 = sums[17];
    let t29 = inverse[0];
    let t33 = inverse[1];
    let t37 = inverse[2];
    let t40 = inverse[3];
    let t41 = inverse[4];
    let t42 = inverse[5];
    let t43 = inverse[6];
    let t44 = inverse[7];
    let t45 = inverse[8];
    let z0 = t44 & y15;
    let z1 = t37 & y6;
    let z2 = t33 & x7;
    let z3 = t43 & y16;
    let z4 = t40 & y1;
    let z5 = t29 & y7;
    let z6 = t42 & y11;
    let z7 = t45 & y17;
    let z8 = t41 & y10;
    let z9 = t44 & y12;
    let z10 = t37 & y3;
    let z11 = t33 & y4;
    let z12 = t43 & y13;
    let z13 = t40 & y5;
    let z14 = t29 & y2;
    let z15 = t42 & y9;
    let z16 = t45 & y14;
    let z17 = t41 & y8;
    [
        z0, z1, z2, z3, z4, z5, z6, z7, z8, z9, z10, z11, z12, z13, z14, z15, z16, z17,
    ]
}

/// The last linear layer: the bits of the result, the lowest first.
#[inline(always)]
fn last_layer(outputs: [u64x2; 18]) -> [u64x2; 8]
    ensures { (a b : List ℕ) → outputs ≡ joined 18 a b → result ≡ joined 8 (last_layer on_words a) (last_layer on_words b) }
{
    let z0 = outputs[0];
    let z1 = outputs[1];
    let z2 = outputs[2];
    let z3 = outputs[3];
    let z4 = outputs[4];
    let z5 = outputs[5];
    let z6 = outputs[6];
    let z7 = outputs[7];
    let z8 = outputs[8];
    let z9 = outputs[9];
    let z10 = outputs[10];
    let z11 = outputs[11];
    let z12 = outputs[12];
    let z13 = outputs[13];
    let z14 = outputs[14];
    let z15 = outputs[15];
    let z16 = outputs[16];
    let z17 = outputs[17];
    let ones = u64x2::splat(u64::MAX);
    let t46 = z15 ^ z16;
    let t47 = z10 ^ z11;
    let t48 = z5 ^ z13;
    let t49 = z9 ^ z10;
    let t50 = z2 ^ z12;
    let t51 = z2 ^ z5;
    let t52 = z7 ^ z8;
    let t53 = z0 ^ z3;
    let t54 = z6 ^ z7;
    let t55 = z16 ^ z17;
    let t56 = z12 ^ t48;
    let t57 = t50 ^ t53;
    let t58 = z4 ^ t46;
    let t59 = z3 ^ t54;
    let t60 = t46 ^ t57;
    let t61 = z14 ^ t57;
    let t62 = t52 ^ t58;
    let t63 = t49 ^ t58;
    let t64 = z4 ^ t59;
    let t65 = t61 ^ t62;
    let t66 = z1 ^ t63;
    let s0 = t59 ^ t63;
    let s6 = t56 ^ (t62 ^ ones);
    let s7 = t48 ^ (t60 ^ ones);
    let t67 = t64 ^ t65;
    let s3 = t53 ^ t66;
    let s4 = t51 ^ t66;
    let s5 = t47 ^ t65;
    let s1 = t64 ^ (s3 ^ ones);
    let s2 = t55 ^ (t67 ^ ones);
    [s7, s6, s5, s4, s3, s2, s1, s0]
}
