//! The date of a moment.
ghost use Rattle.std.specs.Prelude.{◌≡◌, ◌<◌, IfOk};
ghost use Rattle.cds_base.specs.declared.clock.TheConstants.{MOMENT_LIMIT};
ghost use Rattle.cds_report.specs.Dates.{date_of};

use cds_base::{NoMemory, Text};
use httpdate::{HttpDate, fmt_http_date};
use std::alloc::Global;

/// The date of a moment, in seconds since the beginning of 1970, as `Sun, 06 Nov 1994 08:49:37 GMT`. The only refusal is
/// want of memory. The form is that of RFC 9110.
#[tactic(auto, using(crate::proofs::DateLaws::date_of_is))]
pub fn date_text(alloc: Global, moment: u64) -> Result<Text, NoMemory>
    requires { moment < MOMENT_LIMIT }
    ensures { IfOk result (λ text. text ≡ date_of moment) }
{
    let Ok(date) = HttpDate::from_unix_secs(moment) else {
        unreachable!()
    };
    Ok(Text::from_string(fmt_http_date(alloc, date)?))
}
