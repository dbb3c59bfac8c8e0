//! Sums of numbers that fall by one.

ghost use Rattle.std.specs.Prelude.{◌≡◌, ◌≤◌, ◌<◌, ◌*◌, ◌^◌};
ghost use Rattle.travel_times.specs.Falling.{falling};

/// The sum of `count` numbers of which the first is `top` and each other is one less than the one before, but not below
/// 0.
pub fn falling(top: u64, count: u64) -> u64
    requires { top < 2 ^ 32 }
    ensures sum { result ≡ falling top count }
    ensures small { result ≤ count * 4294967295 }
{
    let count = count.min(top);
    if count == 0 {
        return 0;
    }
    count * top - count * (count - 1) / 2
}
