//! The greatest common divisor of two numbers.
ghost use Rattle.std.specs.Prelude.{◌≡◌};
ghost use Rattle.std.specs.Int.{IsGcd};
ghost use Rattle.qos_base.specs.Divisor.{gcd_of};

/// The greatest common divisor of two numbers, by Euclid's algorithm: the greatest that divides both. Where
/// one of them is 0 it is the other.
pub fn gcd(a: u64, b: u64) -> u64
    ensures value { result ≡ gcd_of a b }
    ensures divisor { IsGcd a b result }
{
    let mut divided = a;
    let mut divisor = b;
    while divisor != 0 {
        let rest = divided % divisor;
        divided = divisor;
        divisor = rest;
    }
    divided
}
