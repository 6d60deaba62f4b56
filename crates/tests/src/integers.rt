// The ends of the ranges, as tables.
use sp_base::PKind;
use sp_base::PKind::{BadShift, CastRange, DivZero, Overflow};
use sp_numbers::Arithmetic::{Add, Divide, Multiply, Remainder, Subtract};
use sp_numbers::Width::{W8, W16, W32, W64};
use sp_numbers::{
    Arithmetic, BitOperator, Shift, Width, bits, bitwise, complement, negate_signed, shift,
    signed_arithmetic, signed_to_signed, signed_to_unsigned, unsigned_arithmetic,
    unsigned_to_signed, unsigned_to_unsigned,
};

const UNSIGNED: [(Arithmetic, Width, u64, u64, Result<u64, PKind>); 7] = [
    (Add, W8, 255, 0, Ok(255)),
    (Add, W8, 255, 1, Err(Overflow)),
    (Add, W64, u64::MAX, 1, Err(Overflow)),
    (Subtract, W32, 0, 1, Err(Overflow)),
    (Multiply, W32, 65_536, 65_536, Err(Overflow)),
    (Divide, W16, 65_535, 256, Ok(255)),
    (Remainder, W8, 7, 0, Err(DivZero)),
];

#[test]
fn unsigned_integers(rt: HostRuntime) {
    for (operator, width, a, b, want) in &UNSIGNED {
        assert_eq!(rt; unsigned_arithmetic(*operator, *width, *a, *b), *want);
    }
}

const SHIFTS: [(Shift, Width, u64, u64, Result<u64, PKind>); 6] = [
    (Shift::Left, W8, 0x81, 0, Ok(0x81)),
    (Shift::Left, W8, 0x81, 7, Ok(0x80)),
    (Shift::Left, W8, 0x81, 8, Err(BadShift)),
    (Shift::Left, W64, 3, 63, Ok(0x8000_0000_0000_0000)),
    (Shift::Right, W16, 0x8000, 15, Ok(1)),
    (Shift::Right, W64, 1, u64::MAX, Err(BadShift)),
];

#[test]
fn shifts(rt: HostRuntime) {
    for (direction, width, a, count, want) in &SHIFTS {
        assert_eq!(rt; shift(*direction, *width, *a, *count), *want);
    }
}

#[test]
fn bits_of_integers(rt: HostRuntime) {
    let found = [
        bitwise(BitOperator::Xor, 0b1100, 0b1010),
        complement(W16, 0xff),
        bits(0xa5, 8, 0, 3, false),
        bits(0xa5, 8, 0, 3, true),
        bits(u64::MAX, 64, 0, 63, false),
    ];
    assert_eq!(rt; found, [0b0110, 0xff00, 0x5, 0xa, u64::MAX]);
}

const SIGNED: [(Arithmetic, Width, i64, i64, Result<i64, PKind>); 10] = [
    (Add, W8, 127, 1, Err(Overflow)),
    (Subtract, W8, -127, 1, Ok(-128)),
    (Multiply, W64, i64::MIN, -1, Err(Overflow)),
    (Divide, W8, -128, -1, Err(Overflow)),
    (Divide, W64, i64::MIN, -1, Err(Overflow)),
    (Divide, W32, -7, 2, Ok(-3)),
    (Remainder, W32, -7, 2, Ok(-1)),
    (Remainder, W32, 7, -2, Ok(1)),
    (Remainder, W64, i64::MIN, -1, Ok(0)),
    (Divide, W16, 1, 0, Err(DivZero)),
];

#[test]
fn signed_integers(rt: HostRuntime) {
    for (operator, width, a, b, want) in &SIGNED {
        assert_eq!(rt; signed_arithmetic(*operator, *width, *a, *b), *want);
    }
}

#[test]
fn negations_and_casts_to_signed(rt: HostRuntime) {
    let found = [
        negate_signed(W16, -32_768),
        unsigned_to_signed(128, W8),
        unsigned_to_signed(127, W8),
        signed_to_signed(-129, W8),
    ];
    let want = [Err(Overflow), Err(CastRange), Ok(127), Err(CastRange)];
    assert_eq!(rt; found, want);
}

#[test]
fn casts_to_unsigned(rt: HostRuntime) {
    let found = [signed_to_unsigned(-1, W64), unsigned_to_unsigned(256, W8)];
    assert_eq!(rt; found, [Err(CastRange), Err(CastRange)]);
}
