//! How the refusals of a text are told.
ghost use Rattle.std.specs.Prelude.{◌≡◌};
ghost use Rattle.cds_fields.specs.Refusals.{Refusals};

use cds_base::Text;

/// The refusals of a field, each with its path: the names of fields and the numbers of entries, which count from 1,
/// with points between them. A text that tells some of them alike answers the same for them.
pub trait Refusal: Drop + Sized {
    ghost told: { Refusals Self };

    /// The field must be there and isn't.
    fn missing(path: Text) -> Self
        ensures { result ≡ told.missing path };

    /// The field's value is of a wrong kind or outside its range, or its list is too short.
    fn range(path: Text) -> Self
        ensures { result ≡ told.range path };

    /// No section of its kind has the field.
    fn unknown(path: Text) -> Self
        ensures { result ≡ told.unknown path };

    /// The field's list or object has too many entries.
    fn too_many(path: Text) -> Self
        ensures { result ≡ told.too_many path };

    /// There was no memory, which says nothing of the text.
    fn no_memory() -> Self
        ensures { result ≡ told.wanting };
}
