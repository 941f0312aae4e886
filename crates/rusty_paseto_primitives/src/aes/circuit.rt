//! The S-box of AES on eight blocks in planes: the circuit of Boyar and Peralta ("A new combinational
//! logic minimization technique with applications to cryptology", SEA 2010), of 115 gates, with four
//! more for the constant. The names of values are the paper's.

ghost use Rattle.std.specs.Prelude.{◌≡◌, ℕ, Bool, true, ◌++◌, ◌∷◌, [], List, map};
ghost use Rattle.std.specs.List.{range_with_len};
ghost use Rattle.rusty_paseto_primitives.specs.Aes.Circuit.{folded_gates, folded_outputs, gathered_gates, gathered_outputs, inverted_gates, inverted_outputs, multiplied_gates, multiplied_outputs, spread_gates, spread_outputs};
ghost use Rattle.rusty_paseto_primitives.specs.Bytes.{IsBytes};
ghost use Rattle.rusty_paseto_primitives.specs.Aes.State.{sub_bytes};
ghost use Rattle.rusty_paseto_primitives.specs.Aes.Planes.{bits_of_gates, plane, planes, vectors};

use std::simd::u8x16;

// The lowest bit of each byte, and 21 sums of its bits.
#[inline(always)]
fn spread(q: [u8x16; 8]) -> [u8x16; 22]
    ensures { (f : ℕ → ℕ → ℕ → Bool) → q ≡ vectors 8 f
        → result ≡ vectors 22 (bits_of_gates spread_gates spread_outputs
        (map f (range_with_len 0 8))) }
{
    let y14 = q[4] ^ q[2];
    let y13 = q[7] ^ q[1];
    let y9 = q[7] ^ q[4];
    let y8 = q[7] ^ q[2];
    let t0 = q[6] ^ q[5];
    let y1 = t0 ^ q[0];
    let y4 = y1 ^ q[4];
    let y12 = y13 ^ y14;
    let y2 = y1 ^ q[7];
    let y5 = y1 ^ q[1];
    let y3 = y5 ^ y8;
    let t1 = q[3] ^ y12;
    let y15 = t1 ^ q[2];
    let y20 = t1 ^ q[6];
    let y6 = y15 ^ q[0];
    let y10 = y15 ^ t0;
    let y11 = y20 ^ y9;
    let y7 = q[0] ^ y11;
    let y17 = y10 ^ y11;
    let y19 = y10 ^ y8;
    let y16 = t0 ^ y11;
    let y21 = y13 ^ y16;
    let y18 = q[7] ^ y16;
    [
        q[0], y1, y2, y3, y4, y5, y6, y7, y8, y9, y10, y11, y12, y13, y14, y15, y16, y17, y18, y19,
        y20, y21,
    ]
}

// The four bits that are to be inverted in the field of sixteen elements.
#[inline(always)]
fn folded(y: [u8x16; 22]) -> [u8x16; 4]
    ensures { (f : ℕ → ℕ → ℕ → Bool) → y ≡ vectors 22 f
        → result ≡ vectors 4 (bits_of_gates folded_gates folded_outputs
        (map f (range_with_len 0 22))) }
{
    let t2 = y[12] & y[15];
    let t3 = y[3] & y[6];
    let t4 = t3 ^ t2;
    let t5 = y[4] & y[0];
    let t6 = t5 ^ t2;
    let t7 = y[13] & y[16];
    let t8 = y[5] & y[1];
    let t9 = t8 ^ t7;
    let t10 = y[2] & y[7];
    let t11 = t10 ^ t7;
    let t12 = y[9] & y[11];
    let t13 = y[14] & y[17];
    let t14 = t13 ^ t12;
    let t15 = y[8] & y[10];
    let t16 = t15 ^ t12;
    let t17 = t4 ^ t14;
    let t18 = t6 ^ t16;
    let t19 = t9 ^ t14;
    let t20 = t11 ^ t16;
    let t21 = t17 ^ y[20];
    let t22 = t18 ^ y[19];
    let t23 = t19 ^ y[21];
    let t24 = t20 ^ y[18];
    [t21, t22, t23, t24]
}

// The inverse in that field, and five sums of its bits.
#[inline(always)]
fn inverted(t: [u8x16; 4]) -> [u8x16; 9]
    ensures { (f : ℕ → ℕ → ℕ → Bool) → t ≡ vectors 4 f
        → result ≡ vectors 9 (bits_of_gates inverted_gates inverted_outputs
        (map f (range_with_len 0 4))) }
{
    let t25 = t[0] ^ t[1];
    let t26 = t[0] & t[2];
    let t27 = t[3] ^ t26;
    let t28 = t25 & t27;
    let t29 = t28 ^ t[1];
    let t30 = t[2] ^ t[3];
    let t31 = t[1] ^ t26;
    let t32 = t31 & t30;
    let t33 = t32 ^ t[3];
    let t34 = t[2] ^ t33;
    let t35 = t27 ^ t33;
    let t36 = t[3] & t35;
    let t37 = t36 ^ t34;
    let t38 = t27 ^ t36;
    let t39 = t29 & t38;
    let t40 = t25 ^ t39;
    let t41 = t40 ^ t37;
    let t42 = t29 ^ t33;
    let t43 = t29 ^ t40;
    let t44 = t33 ^ t37;
    let t45 = t42 ^ t41;
    [t29, t33, t37, t40, t41, t42, t43, t44, t45]
}

// The products of the inverse with the sums of the byte.
#[inline(always)]
fn multiplied(y: [u8x16; 22], t: [u8x16; 9]) -> [u8x16; 18]
    ensures { (f g : ℕ → ℕ → ℕ → Bool) → y ≡ vectors 22 f → t ≡ vectors 9 g
        → result ≡ vectors 18 (bits_of_gates multiplied_gates multiplied_outputs
        (map f (range_with_len 0 22) ++ map g (range_with_len 0 9))) }
{
    let z0 = t[7] & y[15];
    let z1 = t[2] & y[6];
    let z2 = t[1] & y[0];
    let z3 = t[6] & y[16];
    let z4 = t[3] & y[1];
    let z5 = t[0] & y[7];
    let z6 = t[5] & y[11];
    let z7 = t[8] & y[17];
    let z8 = t[4] & y[10];
    let z9 = t[7] & y[12];
    let z10 = t[2] & y[3];
    let z11 = t[1] & y[4];
    let z12 = t[6] & y[13];
    let z13 = t[3] & y[5];
    let z14 = t[0] & y[2];
    let z15 = t[5] & y[9];
    let z16 = t[8] & y[14];
    let z17 = t[4] & y[8];
    [
        z0, z1, z2, z3, z4, z5, z6, z7, z8, z9, z10, z11, z12, z13, z14, z15, z16, z17,
    ]
}

#[inline(always)]
fn ones() -> u8x16
    ensures { result ≡ plane (λ i j. true) }
{
    u8x16::splat(0xff)
}

// The bits of the substituted byte, of the products.
#[inline(always)]
fn gathered(z: [u8x16; 18]) -> [u8x16; 8]
    ensures { (f : ℕ → ℕ → ℕ → Bool) → z ≡ vectors 18 f
        → result ≡ vectors 8 (bits_of_gates gathered_gates gathered_outputs
        (map f (range_with_len 0 18) ++ (λ i j. true) ∷ [])) }
{
    let one = ones();
    let t46 = z[15] ^ z[16];
    let t47 = z[10] ^ z[11];
    let t48 = z[5] ^ z[13];
    let t49 = z[9] ^ z[10];
    let t50 = z[2] ^ z[12];
    let t51 = z[2] ^ z[5];
    let t52 = z[7] ^ z[8];
    let t53 = z[0] ^ z[3];
    let t54 = z[6] ^ z[7];
    let t55 = z[16] ^ z[17];
    let t56 = z[12] ^ t48;
    let t57 = t50 ^ t53;
    let t58 = z[4] ^ t46;
    let t59 = z[3] ^ t54;
    let t60 = t46 ^ t57;
    let t61 = z[14] ^ t57;
    let t62 = t52 ^ t58;
    let t63 = t49 ^ t58;
    let t64 = z[4] ^ t59;
    let t65 = t61 ^ t62;
    let t66 = z[1] ^ t63;
    let s0 = t59 ^ t63;
    let n62 = t62 ^ one;
    let s6 = t56 ^ n62;
    let n60 = t60 ^ one;
    let s7 = t48 ^ n60;
    let t67 = t64 ^ t65;
    let s3 = t53 ^ t66;
    let s4 = t51 ^ t66;
    let s5 = t47 ^ t65;
    let n3 = s3 ^ one;
    let s1 = t64 ^ n3;
    let n67 = t67 ^ one;
    let s2 = t55 ^ n67;
    [s7, s6, s5, s4, s3, s2, s1, s0]
}

// SubBytes of each block (FIPS 197, section 5.1.1).
#[inline(always)]
pub(super) fn sub_bytes(q: [u8x16; 8]) -> [u8x16; 8]
    ensures { (s : ℕ → List ℕ) → ((j : ℕ) → IsBytes (s j)) → q ≡ planes s → result ≡ planes
        (λ j. sub_bytes (s j)) }
{
    let y = spread(q);
    gathered(multiplied(y, inverted(folded(y))))
}
