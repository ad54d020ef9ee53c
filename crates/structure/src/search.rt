// The search for the lowest record that a test finds.
ghost use Rattle.std.specs.Prelude.{◌≡◌, ◌≤◌, ◌<◌, ℕ, Bool};
ghost use Rattle.records.specs.Words.{count};
ghost use Rattle.records.specs.Limits.{most_records};
ghost use Rattle.answers.specs.Answers.{lowest};
ghost use Rattle.answers.specs.Searches.{found};
ghost use Rattle.structure.specs.Search.{Answering};

use records::Sheet;

// The lowest record from `first` on that a test finds.
pub fn lowest_record<F: Fn(usize) -> bool>(sheet: &Sheet, first: usize, test: F) -> Option<usize>
    requires { (q : ℕ) → first ≤ q → q < count sheet.now → q < most_records → F.pre test q }
    ensures { (p : ℕ → Bool) → Answering (F.post test) p first (count sheet.now) → found result ≡ lowest p (count sheet.now) }
{
    for rec in first..sheet.records() {
        if test(rec) {
            return Some(rec);
        }
    }
    None
}
