// The leaves of constants and delays, held against the leaves of their type.
ghost use Rattle.std.specs.Prelude.{◌≡◌, ◌<◌, get_or};
ghost use Rattle.picoella.specs.Language.{bounds, leaves};
ghost use Rattle.records.specs.Kinds.{leafs};
ghost use Rattle.records.specs.Says.{sort_at};
ghost use Rattle.records.specs.Trees.{type_at, TypeRecord, chain};
ghost use Rattle.records.specs.Decoding.{leaf_values};
ghost use Rattle.records.specs.Words.{count};
ghost use Rattle.structure.specs.Rules.{Passes};
ghost use Rattle.typing.specs.Judgements.{within};
ghost use Rattle.typing.specs.Judging.{Ground};
ghost use Rattle.typing.specs.LeafChains.{LeafOrEnd, TakenOff};

use records::{Kind, Sheet, WORD_A, WORD_B, WORD_NEXT, WidthTable};

// The constructor count of leaf i of type t.
pub fn bound_at(sheet: &Sheet, table: &WidthTable, t: usize, i: usize) -> usize
    requires { Ground sheet.now (count sheet.now) table.now × TypeRecord sheet.now t × (i < leaves (type_at sheet.now t)) }
    ensures { result ≡ get_or (bounds (type_at sheet.now t)) i 0 }
{
    let mut flat = t;
    let mut at = i;
    while sheet.kind(flat) == Kind::PairType {
        let first = sheet.word(flat, WORD_A);
        let w = usize::from(table[first]);
        if at < w {
            flat = first;
        } else {
            at -= w;
            flat = sheet.word(flat, WORD_B);
        }
    }
    sheet.word(flat, WORD_A)
}

// Takes the leaves of type t off a chain that goes on at `leaf`, or is at its end where that is 0. Gives where the chain then goes
// on; none where its leaves do not fit.
fn take_off(sheet: &Sheet, t: usize, leaf: usize) -> Option<usize>
    requires { Passes sheet.now × TypeRecord sheet.now t × LeafOrEnd sheet.now leaf }
    ensures { TakenOff sheet.now t leaf result }
{
    if sheet.kind(t) == Kind::PairType {
        let rest = take_off(sheet, sheet.word(t, WORD_A), leaf)?;
        return take_off(sheet, sheet.word(t, WORD_B), rest);
    }
    if leaf == 0 || sheet.word(t, WORD_A) < sheet.word(leaf, WORD_A) {
        return None;
    }
    Some(sheet.word(leaf, WORD_NEXT))
}

// Whether the chain of leaves from `first` has as many leaves as type t, each no greater than its flat type's count.
pub fn leaves_fit(sheet: &Sheet, t: usize, first: usize) -> bool
    requires { Passes sheet.now × TypeRecord sheet.now t × (first < count sheet.now) × (sort_at sheet.now first ≡ leafs) }
    ensures { result ≡ within (bounds (type_at sheet.now t)) (leaf_values sheet.now (chain sheet.now first)) }
{
    match take_off(sheet, t, first) {
        Some(rest) => rest == 0,
        None => false,
    }
}
