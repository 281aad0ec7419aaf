ghost use Rattle.std.specs.Prelude.{◌≡◌};
ghost use Rattle.rg_agg.specs.Sharing.{kept_as as kept_func};

use rg_keywords::Func;

/// The function whose state a function is answered from: that of a median serves each percentile, and each
/// other function has its own.
pub fn kept_as(func: Func) -> Func
    ensures { result ≡ kept_func func }
{
    match func {
        Func::Pct(_) => Func::Median,
        _ => func,
    }
}
