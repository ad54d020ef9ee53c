// A sheet: bytes that are whole records, at least one and at most 4,096.
ghost use Rattle.std.specs.Prelude.{◌≡◌, ◌<◌, ◌↔◌, ℕ, List, IsSome, IfSome};
ghost use Rattle.records.specs.Words.{count, word};
ghost use Rattle.records.specs.Sized.{Sized};
ghost use Rattle.records.specs.Limits.{word_bound};
ghost use Rattle.records.specs.Kinded.{kind_meant};
ghost use Rattle.records.specs.Says.{kind_at};

use crate::kinds::Kind;
use crate::words::{offset, records_in};
use crate::{RECORD_BYTES, SHEET_BYTES, WORD_KIND};
use std::marker::Model;

#[derive(Drop)]
pub struct Sheet<'a> {
    bytes: &'a [u8],
    records: usize,
}

impl<'a> Model for Sheet<'a> {
    ghost Value = { List ℕ };

    ghost view = { λ s. s.bytes.now };

    ghost invariant = { λ s. Sized s.bytes.now s.records };
}

impl<'a> Sheet<'a> {
    // The sheet of these bytes; none where they are no whole records, or too few or too many.
    pub fn new(bytes: &'a [u8]) -> Option<Sheet<'a>>
        ensures some { IsSome result ↔ Sized bytes.now (count bytes.now) }
        ensures same { IfSome result (λ s. s ≡ bytes.now) }
    {
        let records = records_in(bytes.len());
        if bytes.len() < RECORD_BYTES || SHEET_BYTES < bytes.len() {
            return None;
        }
        if RECORD_BYTES * records != bytes.len() {
            return None;
        }
        Some(Sheet { bytes, records })
    }

    // The sheet of bytes that are known to be so many records.
    pub fn of(bytes: &'a [u8], records: usize) -> Sheet<'a>
        requires { Sized bytes.now records }
        ensures { result ≡ bytes.now }
    {
        Sheet { bytes, records }
    }

    pub fn bytes(&self) -> &'a [u8]
        ensures { result.now ≡ self.now }
    {
        self.bytes
    }

    // The number of its records.
    pub fn records(&self) -> usize
        ensures counted { result ≡ count self.now }
        ensures sized { Sized self.now result }
    {
        self.records
    }

    // The number of the header's record, which every sheet has.
    pub fn header(&self) -> usize
        ensures { (result ≡ 0) × (result < count self.now) }
    {
        let _records = self.records;
        0
    }

    // Word k of a record: 0 is the kind, 1 next, 2 to 5 the words a, b, c, d.
    pub fn word(&self, rec: usize, k: usize) -> usize
        requires { (rec < count self.now) × (k < 6) }
        ensures { (result ≡ word self.now rec k) × (result < word_bound) }
    {
        let bytes = self.bytes;
        let at = offset(rec, k);
        usize::from(bytes[at]) + 256 * usize::from(bytes[at + 1])
    }

    // Inlined, so that a match on the kind is one jump by its number: a call gave runs 1.2 to 2.2
    // times as long.
    #[inline(always)]
    pub fn kind(&self, rec: usize) -> Kind
        requires { rec < count self.now }
        ensures { kind_meant result ≡ kind_at self.now rec }
    {
        Kind::from(self.word(rec, WORD_KIND))
    }
}
