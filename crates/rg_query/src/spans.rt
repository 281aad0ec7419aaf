ghost use Rattle.std.specs.Prelude.{◌≡◌};
ghost use Rattle.rg_parse.specs.Parts.{IsCount, IsMaybeDuration};
ghost use Rattle.rg_parse.specs.Views.{duration, maybe_duration};
ghost use Rattle.rg_query.specs.Resolving.{millis_of as millis_test};
ghost use Rattle.rg_query.specs.Building.{Gives, same, window_meant, span_meant};

use crate::fault::QueryFault;
use crate::names::bytes_at;
use rg_bytes::read_whole;
use rg_metric::Window;
use rg_parse::Duration;

/// The longest span, in milliseconds.
const MAX_SPAN_MS: u64 = 1_000_000_000_000_000;

/// The window of a query.
pub(crate) fn window(
    text: &[u8],
    length: Option<Duration>,
    delay: Option<Duration>,
) -> Result<Window, QueryFault>
    requires length { IsMaybeDuration text.now length }
    requires delay { IsMaybeDuration text.now delay }
    ensures { Gives same (window_meant (maybe_duration text.now length) (maybe_duration text.now delay)) result }
{
    let length = match length {
        Some(lasting) => Some(span(text, 1, lasting)?),
        None => None,
    };
    let delay = match delay {
        Some(lasting) => span(text, 0, lasting)?,
        None => 0,
    };
    Ok(Window { delay, length })
}

/// How many milliseconds a span is that is to be at least so many.
fn span(text: &[u8], least: u64, lasting: Duration) -> Result<u64, QueryFault>
    requires { IsCount text.now lasting.number }
    ensures { result ≡ span_meant least (duration text.now lasting) }
{
    match millis_of(text, least, lasting) {
        Some(millis) => Ok(millis),
        None => Err(QueryFault::BadSpan(lasting.number.start)),
    }
}

fn millis_of(text: &[u8], least: u64, lasting: Duration) -> Option<u64>
    requires { IsCount text.now lasting.number }
    ensures { result ≡ millis_test least (duration text.now lasting) }
{
    let number = read_whole(bytes_at(text, lasting.number))?;
    let millis = number.checked_mul(lasting.unit.millis())?;
    if least <= millis && millis <= MAX_SPAN_MS {
        Some(millis)
    } else {
        None
    }
}
