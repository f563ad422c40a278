//! The least common multiple of the weights.
ghost use Rattle.std.specs.Prelude.{◌≡◌, ℕ, ◌*◌, ◌^◌, ◌<◌, ◌≤◌, All};
ghost use Rattle.std.specs.Int.{◌∣◌};
ghost use Rattle.wrr_pick.specs.Multiple.{least_common_multiple};

use qos_base::gcd;

/// The least common multiple of four weights.
pub(crate) fn common_multiple(weights: &[u8; 4]) -> u64
    requires { All (λ w. 1 ≤ w) weights.now }
    ensures value { result ≡ least_common_multiple weights.now }
    ensures positive { 0 < result }
    ensures within { result < 2 ^ 32 }
{
    let mut multiple = u64::from(weights[0]);
    multiple = multiple_of_both(multiple, u64::from(weights[1]));
    multiple = multiple_of_both(multiple, u64::from(weights[2]));
    multiple_of_both(multiple, u64::from(weights[3]))
}

// The least number that both divide, which divides every other one: their product over their greatest
// common divisor.
fn multiple_of_both(a: u64, b: u64) -> u64
    requires first_positive { 0 < a }
    requires second_positive { 0 < b }
    requires fits { a * b < 2 ^ 64 }
    ensures first { a ∣ result }
    ensures second { b ∣ result }
    ensures least { (m : ℕ) → a ∣ m → b ∣ m → result ∣ m }
    ensures positive { 0 < result }
    ensures within { result ≤ a * b }
{
    a / gcd(a, b) * b
}
