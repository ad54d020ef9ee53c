// Where the words of a record stand.
ghost use Rattle.std.specs.Prelude.{◌≡◌, ◌/◌, ◌<◌};
ghost use Rattle.records.specs.Words.{offset};
ghost use Rattle.records.specs.Limits.{most_records};

use crate::RECORD_BYTES;

// The number of whole records in so many bytes: the one place that divides by a record's length.
pub fn records_in(length: usize) -> usize
    ensures { result ≡ length / 12 }
{
    length / RECORD_BYTES
}

// Where word k of a record begins.
pub fn offset(rec: usize, k: usize) -> usize
    requires { (rec < most_records) × (k < 6) }
    ensures { result ≡ offset rec k }
{
    RECORD_BYTES * rec + 2 * k
}
