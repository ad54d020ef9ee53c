// The changes in the outputs of a run: counted for a leaf, and over all pairs of cycle and leaf; and the report's lines.
#![tactic(auto)]

ghost use Rattle.std.specs.Prelude.{◌≡◌, ◌+◌, ◌*◌, ◌/◌, ◌≤◌, ◌<◌, length};
ghost use Rattle.listing.specs.Wrote.{line_bytes};
ghost use Rattle.listing.specs.Texts.{HasRoom, Added};
ghost use Rattle.listing.specs.Seen.{written};
ghost use Rattle.changes.specs.Changes.{changes_of, changes_in, total_changes};
ghost use Rattle.changes.specs.Places.{change_here};
ghost use Rattle.changes.specs.ReportLines.{leaf_line, leaf_lines, total_line, report};

use listing::{Outputs, Text};

// 1 where the leaf at a place differs from the one in the cycle before, else 0.
fn changed(outputs: Outputs<'_>, at: usize) -> usize
    requires later { outputs.width ≤ at }
    requires inside { at < length outputs.leaves.now }
    ensures { result ≡ change_here outputs.entry.width outputs.entry.leaves.now at }
{
    usize::from(outputs.leaves[at - outputs.width] != outputs.leaves[at])
}

// In how many cycles a leaf changes.
fn changes_of(outputs: Outputs<'_>, leaf: usize) -> usize
    requires { leaf < outputs.width }
    ensures { result ≡ changes_of outputs.entry.width outputs.entry.leaves.now leaf }
{
    let mut changes = 0;
    for k in 1..outputs.cycles() {
        changes += changed(outputs, k * outputs.width + leaf);
    }
    changes
}

// In how many leaves cycle k differs from the one before.
fn changes_in(outputs: Outputs<'_>, k: usize) -> usize
    requires first { 0 < k }
    requires inside { k < length outputs.leaves.now / outputs.width }
    ensures changes { result ≡ length (changes_in outputs.entry.width outputs.entry.leaves.now k outputs.entry.width) }
    ensures few { result ≤ outputs.entry.width }
{
    let start = k * outputs.width;
    let mut changes = 0;
    for at in start..start + outputs.width {
        changes += changed(outputs, at);
    }
    changes
}

// The pairs of cycle and leaf at which a change stands, counted through the outputs.
fn all_changes(outputs: Outputs<'_>) -> usize
    ensures { result ≡ total_changes outputs.entry.width outputs.entry.leaves.now }
{
    let mut changes = 0;
    for k in 1..outputs.cycles() {
        changes += changes_in(outputs, k);
    }
    changes
}

// The line of a leaf.
fn put_changes(text: &mut Text<'_>, leaf: usize, changes: usize)
    requires { HasRoom (written text.old) line_bytes }
    ensures { Added (written text.old) (leaf_line leaf changes) (written text.new) }
{
    text.put_numbers_line(b"leaf ", leaf as u64, b": ", changes as u64);
}

// The last line.
fn put_total(text: &mut Text<'_>, changes: usize)
    requires { HasRoom (written text.old) line_bytes }
    ensures { Added (written text.old) (total_line changes) (written text.new) }
{
    text.put_word_line(b"total ", changes as u64);
}

// The lines of all leaves.
fn put_leaf_lines(text: &mut Text<'_>, outputs: Outputs<'_>)
    requires { HasRoom (written text.old) (outputs.width * line_bytes) }
    ensures lines { Added (written text.old) (leaf_lines outputs.entry.width outputs.entry.leaves.now outputs.entry.width) (written text.new) }
    ensures short { length (written text.new).bytes ≤ length (written text.old).bytes + outputs.entry.width * line_bytes }
{
    for leaf in 0..outputs.width {
        put_changes(text, leaf, changes_of(outputs, leaf));
    }
}

// The report of outputs.
pub fn put_report(text: &mut Text<'_>, outputs: Outputs<'_>)
    requires { HasRoom (written text.old) (outputs.width * line_bytes + line_bytes) }
    ensures { Added (written text.old) (report outputs.entry.width outputs.entry.leaves.now) (written text.new) }
{
    put_leaf_lines(text, outputs);
    put_total(text, all_changes(outputs));
}
