// SubBytes on planes, by 114 gates. Around the inverse in GF(2^4) they are the circuit of 113 gates after
// J. Boyar and R. Peralta ("A New Combinational Logic Minimization Technique with Applications to
// Cryptology", 2010). The inverse (t25 to t40, u1 to u6) takes one gate more than theirs, and fewer gates
// wait for one another in it. The constant 63 of the affine map, four negations, is left out: the round
// keys bring it in. The gates stand in the fastest order of many that were measured: a state fills half of
// the 16 registers, so the order decides what is copied and kept in memory.

ghost use Rattle.std.specs.Prelude.{ℕ, ◌<◌, bit_xor};
ghost use Rattle.crypto_spec.specs.Aes.{sub_byte};

use crate::planes::Planes;

impl Planes {
    ghost use Rattle.aes_lanes.specs.Sliced.{IsByte};

    /// SubBytes (FIPS 197, 5.1.1), but for its constant.
    pub fn substituted(self) -> Planes
        ensures { (i b v : ℕ) → i < 16 → b < 8 → v < 256 → IsByte self i b v → IsByte result i b (bit_xor (sub_byte v) 0x63) }
    {
        let x0 = self.bit7;
        let x1 = self.bit6;
        let x2 = self.bit5;
        let x3 = self.bit4;
        let x4 = self.bit3;
        let x5 = self.bit2;
        let x6 = self.bit1;
        let x7 = self.bit0;
        let t0 = x2 ^ x1;
        let y9 = x0 ^ x3;
        let y13 = x6 ^ x0;
        let y14 = x5 ^ x3;
        let y12 = y14 ^ y13;
        let t1 = x4 ^ y12;
        let y1 = x7 ^ t0;
        let y20 = x1 ^ t1;
        let y5 = x6 ^ y1;
        let y15 = t1 ^ x5;
        let y10 = y15 ^ t0;
        let y2 = y1 ^ x0;
        let y11 = y9 ^ y20;
        let y6 = y15 ^ x7;
        let y16 = t0 ^ y11;
        let y8 = x5 ^ x0;
        let y4 = x3 ^ y1;
        let y18 = x0 ^ y16;
        let t2 = y15 & y12;
        let t8 = y5 & y1;
        let y17 = y11 ^ y10;
        let y7 = x7 ^ y11;
        let t12 = y9 & y11;
        let t5 = x7 & y4;
        let t15 = y8 & y10;
        let t7 = y16 & y13;
        let t13 = y17 & y14;
        let y3 = y8 ^ y5;
        let t14 = t13 ^ t12;
        let t16 = t12 ^ t15;
        let t20 = t16 ^ y18;
        let t6 = t5 ^ t16;
        let y21 = y16 ^ y13;
        let t9 = t14 ^ t7;
        let t3 = y6 & y3;
        let t19 = t8 ^ t9;
        let t18 = t2 ^ t6;
        let y19 = y10 ^ y8;
        let t22 = t18 ^ y19;
        let t4 = t3 ^ y20;
        let t23 = y21 ^ t19;
        let t10 = y7 & y2;
        let t17 = t2 ^ t4;
        let t21 = t17 ^ t14;
        let u1 = t23 & t22;
        let t11 = t7 ^ t10;
        let t24 = t11 ^ t20;
        let u2 = t24 | u1;
        let t25 = t22 ^ t21;
        let t26 = t21 & t23;
        let t31 = t22 ^ t26;
        let t27 = t26 ^ t24;
        let u4 = t24 & t21;
        let t28 = t27 & t25;
        let t30 = t23 ^ t24;
        let t29 = t22 ^ t28;
        let t32 = t30 & t31;
        let t33 = t24 ^ t32;
        let u3 = u2 ^ t26;
        let z2 = x7 & t33;
        let t37 = t23 ^ u3;
        let u5 = u4 | t22;
        let u6 = t26 ^ u5;
        let z10 = y3 & t37;
        let t44 = t37 ^ t33;
        let t42 = t29 ^ t33;
        let t40 = t21 ^ u6;
        let z1 = t37 & y6;
        let t43 = t29 ^ t40;
        let z5 = y7 & t29;
        let z9 = t44 & y12;
        let t41 = t37 ^ t40;
        let t45 = t41 ^ t42;
        let z4 = t40 & y1;
        let z0 = t44 & y15;
        let z3 = y16 & t43;
        let tc6 = z3 ^ z4;
        let tc4 = z0 ^ z2;
        let z13 = t40 & y5;
        let z7 = y17 & t45;
        let z17 = y8 & t41;
        let z11 = t33 & y4;
        let tc5 = z0 ^ z1;
        let z12 = y13 & t43;
        let z8 = y10 & t41;
        let z15 = y9 & t42;
        let z16 = t45 & y14;
        let tc1 = z16 ^ z15;
        let tc2 = z10 ^ tc1;
        let tc11 = tc5 ^ tc6;
        let tc3 = tc2 ^ z9;
        let tc13 = z13 ^ tc1;
        let tc8 = z7 ^ tc6;
        let tc12 = z3 ^ z5;
        let tc21 = z11 ^ tc2;
        let s3 = tc3 ^ tc11;
        let z14 = y2 & t29;
        let z6 = t42 & y11;
        let tc7 = z8 ^ z12;
        let tc14 = tc12 ^ tc4;
        let tc9 = tc4 ^ tc7;
        let tc10 = tc8 ^ tc9;
        let tc16 = tc8 ^ z6;
        let tc18 = tc14 ^ tc13;
        let s6 = tc18 ^ tc10;
        let tc17 = tc10 ^ z14;
        let s0 = tc3 ^ tc16;
        let s4 = s3 ^ tc14;
        let tc20 = z15 ^ tc16;
        let s7 = tc18 ^ z12;
        let s5 = tc17 ^ tc21;
        let s1 = s3 ^ tc16;
        let tc26 = z17 ^ tc20;
        let s2 = tc17 ^ tc26;
        Planes {
            bit0: s7,
            bit1: s6,
            bit2: s5,
            bit3: s4,
            bit4: s3,
            bit5: s2,
            bit6: s1,
            bit7: s0,
        }
    }
}
