// The function for C: that of `report` under the same name, and it promises the same.
#![tactic(auto)]

ghost use Rattle.report.specs.Report.{ReportPut};

// The printed lines of an input, put to an output that holds every report: how many bytes were written, and 0 if the lent memory is too short.
#[unsafe(no_mangle)]
pub extern "C" fn gurandyo_report(input: &[u8], scratch: &mut [u64], out: &mut [u8]) -> usize
    ensures { ReportPut input.now scratch.old scratch.new out.old out.new result }
{
    report::gurandyo_report(input, scratch, out)
}
