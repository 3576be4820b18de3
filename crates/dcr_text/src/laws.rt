ghost use Rattle.std.specs.Prelude.{◌≡◌, ℕ, ◌<◌, ◌≤◌, ◌^◌, length, decimal};
ghost use Rattle.std.specs.List.{All};

/// The decimal form of a number is that of no other, so that `read_decimal` undoes `decimal`. It has one
/// digit at least and 20 at most, and nothing but digits.
pub fn decimal_is_one_number()
    ensures one { (m n : ℕ) → m < 2 ^ 64 → n < 2 ^ 64 → decimal m ≡ decimal n → m ≡ n }
    ensures digits { (n : ℕ) → n < 2 ^ 64 → All (λ byte. (48 ≤ byte) × (byte ≤ 57)) (decimal n) }
    ensures some { (n : ℕ) → n < 2 ^ 64 → 0 < length (decimal n) }
    ensures few { (n : ℕ) → n < 2 ^ 64 → length (decimal n) ≤ 20 }
{}
