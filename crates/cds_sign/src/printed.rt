//! What the name and the meaning of a signature may be.
ghost use Rattle.std.specs.Prelude.{◌≡◌};
ghost use Rattle.std.specs.List.{list_all};
ghost use Rattle.cds_sign.specs.Printed.{is_printed, is_printed_byte};

use crate::limits::{FIRST_PRINTED, LAST_PRINTED, MOST_PRINTED_BYTES};

/// Whether a text can be the name or the meaning of a signature: 1 to 64 bytes, each a printed ASCII character or a
/// space. This project's own rule.
pub fn is_printed(text: &[u8]) -> bool
    ensures { result ≡ is_printed text.now }
{
    1 <= text.len() && text.len() <= MOST_PRINTED_BYTES && are_printed_bytes(text)
}

fn are_printed_bytes(text: &[u8]) -> bool
    ensures { result ≡ list_all is_printed_byte text.now }
{
    text.iter().all(|byte| is_printed_byte(*byte))
}

fn is_printed_byte(byte: u8) -> bool
    ensures { result ≡ is_printed_byte byte }
{
    FIRST_PRINTED <= byte && byte <= LAST_PRINTED
}
