//! What the numbers of the rows are, said in another way. Each call tells a caller so, and does nothing.
ghost use Rattle.std.specs.Int.{int_max, int_min};
ghost use Rattle.std.specs.List.{All, Contains, reduce};
ghost use Rattle.std.specs.Prelude.{◌≡◌, ◌<◌, ◌+ℤ◌, ◌*ℤ◌, ◌≤ℤ◌, ℤ, pos, List, IfSome, int_div, int_rem, unsigned_abs};

/// `div` and `mod` make the dividend again; what `mod` gives is smaller than the divisor, and is on the dividend's side
/// of 0. So the quotient is cut towards 0.
pub fn division_is_cut_towards_zero()
    ensures whole { (a d : ℤ) → int_div a d *ℤ d +ℤ int_rem a d ≡ a }
    ensures smaller { (a d : ℤ) → 0 < unsigned_abs d → unsigned_abs (int_rem a d) < unsigned_abs d }
    ensures not_below { (a d : ℤ) → pos 0 ≤ℤ a → pos 0 ≤ℤ int_rem a d }
    ensures not_above { (a d : ℤ) → a ≤ℤ pos 0 → int_rem a d ≤ℤ pos 0 }
{}

/// What `min` gives is one of the numbers, and above none of them.
pub fn min_is_the_least()
    ensures among { (ns : List ℤ) → IfSome (reduce int_min ns) (Contains ns) }
    ensures bound { (ns : List ℤ) → IfSome (reduce int_min ns) (λ least. All (λ n. least ≤ℤ n) ns) }
{}

/// What `max` gives is one of the numbers, and below none of them.
pub fn max_is_the_greatest()
    ensures among { (ns : List ℤ) → IfSome (reduce int_max ns) (Contains ns) }
    ensures bound { (ns : List ℤ) → IfSome (reduce int_max ns) (λ greatest. All (λ n. n ≤ℤ greatest) ns) }
{}
