ghost use Rattle.std.specs.Prelude.{◌≡◌, ◌++◌, IfOk};
ghost use Rattle.std.specs.String.{string_bytes};
ghost use Rattle.cds_report.specs.PeaksText.{peak_line, peaks_table, peaks_text};

use cds_base::{Bytes, NoMemory, RawPeak};
use cds_detect::Raw;
use std::alloc::Global;

/// What the detector finds in a trace, as a text: the table of the raw peaks, which is the header
/// `peak,start,apex,end` and a line for each peak with its number, counted from 1, its first sample, its apex and
/// its last sample; or, where there are more raw peaks than a row may have, `too many` and their number. Lines
/// end in LF. This project's own format.
pub fn peaks_text(alloc: Global, raw: &Raw) -> Result<Bytes, NoMemory>
    ensures { IfOk result (λ text. text ≡ peaks_text raw.now) }
{
    let text = match raw {
        Raw::List(peaks) => peaks_table(alloc, peaks.as_slice())?,
        Raw::TooMany(count) => format!(in alloc; "too many {count}\n")?,
    };
    Ok(Bytes::from_vec(text.into_bytes()))
}

fn peaks_table(alloc: Global, peaks: &[RawPeak]) -> Result<String, NoMemory>
    ensures { IfOk result (λ text. string_bytes text ≡ peaks_table peaks.now) }
{
    let mut text = String::from_str(alloc, "peak,start,apex,end\n")?;
    for (index, peak) in peaks.iter().enumerate() {
        push_peak(&mut text, index + 1, peak)?;
    }
    Ok(text)
}

fn push_peak(text: &mut String, number: usize, peak: &RawPeak) -> Result<(), NoMemory>
    ensures { IfOk result (λ _. string_bytes text.new ≡ string_bytes text.old ++ peak_line number peak.now) }
{
    write!(text, "{number},{},{},{}\n", peak.start, peak.apex, peak.end)
}
