// What sheetreport prints of a sheet and a stimulus, from their run.
#![tactic(auto)]

ghost use Rattle.std.specs.Prelude.{◌≤◌, length};
ghost use Rattle.rooms.specs.Rooms.{most_output};
ghost use Rattle.report.specs.Reported.{report_bytes, ReportTold};

use changes::put_report;
use listing::{Outputs, Text};
use run_listing::tell;

// Runs a sheet on a stimulus, in room for the longest outputs and for the sheet after it, and writes
// what is to be printed to the front of a buffer. It gives the end.
pub fn tell_report(
    sheet: &[u8],
    stim: &[u8],
    out: &mut [u8],
    next: &mut [u8],
    buffer: &mut [u8],
) -> usize
    requires { (most_output ≤ length out.old) × (length sheet.now ≤ length next.old) × (report_bytes ≤ length buffer.old) }
    ensures { ReportTold sheet.now stim.now buffer.new result }
{
    let mut text = Text::new(buffer);
    match tell(sheet, stim, out, next) {
        Ok(listed) => {
            let outputs = Outputs {
                leaves: &out[..listed.length],
                width: listed.width,
            };
            put_report(&mut text, outputs);
        }
        Err(refusal) => text.put_refused(refusal.code.number(), u64::from(refusal.place)),
    }
    text.len()
}
