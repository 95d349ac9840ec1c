//! Many products of bytes: one after the other, and side by side.

ghost use Rattle.std.specs.Prelude.{◌≡◌};
ghost use Rattle.fields.specs.Byte.{byte_of};
ghost use Rattle.products.specs.Chains.{chain, sum_of};

use fields::byte::Byte;
use fields::field::Field;

// The byte of a number's lowest eight bits.
fn low_byte(n: u64) -> Byte
    ensures { result ≡ byte_of n }
{
    Byte::from((n % 256) as u8)
}

/// The last of a chain: each element is the product of the two before it and, added to that, the lowest byte of a counter.
pub fn chained(count: u64) -> Byte
    ensures { result ≡ (chain count).1 }
{
    let mut before = Byte::one();
    let mut last = Byte::one();
    for i in 0..count {
        let next = before * last + low_byte(i);
        before = last;
        last = next;
    }
    last
}

/// The sum of the products of all pairs of bytes, in turn.
pub fn summed(count: u64) -> Byte
    ensures { result ≡ sum_of count }
{
    let mut sum = Byte::zero();
    for i in 0..count {
        sum = sum + low_byte(i) * low_byte(i / 256);
    }
    sum
}
