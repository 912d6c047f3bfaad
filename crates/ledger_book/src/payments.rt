// Money of a trade, in fen, from prices in yuan per tonne and weights in kilograms.

// Deposit and penalty are one sum (01 Money 7).
pub const DEPOSIT: u64 = 5000000;

// x × y of numbers below 2^32. A larger one is no price, weight, payment or row and gives 0.
pub fn product(x: u64, y: u64) -> u64 {
    match (u32::try_from(x), u32::try_from(y)) {
        (Ok(x), Ok(y)) => u64::from(x) * u64::from(y),
        _ => 0,
    }
}

// x × y div z; 0 where z is 0.
pub fn share(x: u64, y: u64, z: u64) -> u64 {
    product(x, y).checked_div(z).unwrap_or(0)
}

// The number that the 32 bits of an i32 stand for: from 2^31 on it is one below 0, 2^32 lower than the bits.
pub fn signed(bits: u64) -> i64 {
    match bits {
        0..2147483648 => bits.cast_signed(),
        _ => bits.wrapping_sub(4294967296).cast_signed(),
    }
}

// A number modulo 2^32, as a field of 32 bits takes it.
pub fn low_bits(x: u64) -> u64 {
    x % 4294967296
}

// price + basis + premium. Each of the three has 32 bits, so the sum lies far from 2^63 on either side.
pub fn signed_price(price: u64, basis: u64, premium: u64) -> i64 {
    price
        .cast_signed()
        .wrapping_add(signed(basis))
        .wrapping_add(signed(premium))
}

// What a tonne costs: that sum, 0 where it is below 1 (02 2/12).
pub fn unit_price(price: u64, basis: u64, premium: u64) -> u64 {
    u64::try_from(signed_price(price, basis, premium)).unwrap_or(0)
}

// Yuan per tonne times kilograms is a tenth of a fen; half a fen is rounded up (01 Money 2, 02 2/12).
pub fn full_payment(price: u64, basis: u64, premium: u64, weight: u64) -> u64 {
    product(unit_price(price, basis, premium), weight).wrapping_add(5) / 10
}

// Four fifths, rounded down (01 Money 3).
pub fn first_payment(full: u64) -> u64 {
    product(full, 80) / 100
}

pub fn rest_payment(full: u64) -> u64 {
    full.wrapping_sub(first_payment(full))
}

// What is paid of the rest once this much is confirmed, however it was cut into invoices (02 3/12).
pub fn paid_of_rest(full: u64, confirmed: u64) -> u64 {
    share(rest_payment(full), confirmed, full)
}

// What a confirmed invoice pays: what is paid of the rest with it, less what is paid without it.
pub fn part_payment(full: u64, confirmed: u64, invoice: u64) -> u64 {
    let with_it = paid_of_rest(full, confirmed.wrapping_add(invoice));
    with_it.wrapping_sub(paid_of_rest(full, confirmed))
}
