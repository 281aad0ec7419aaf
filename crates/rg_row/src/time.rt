ghost use Rattle.std.specs.Prelude.{◌≡◌};
ghost use Rattle.rg_bytes.specs.Numbers.{whole_of};
ghost use Rattle.rg_row.specs.Rows.{time_most};

use rg_bytes::read_whole;
use rg_event::MAX_TIME;

/// The time that a text says, if it says one.
#[inline(always)]
pub fn read_time(text: &[u8]) -> Option<u64>
    ensures { result ≡ time_most (whole_of text.now) }
{
    match read_whole(text) {
        Some(time) if time <= MAX_TIME => Some(time),
        _ => None,
    }
}
