// All cases are run, and each difference is told.
use crate::cases::{Case, Cases};
use account::reading::verdict_line;
use pages::page::Page;
use std::alloc::{AllocError, Global};

// A line without its end.
fn told(line: &[u8]) -> &[u8] {
    match line {
        [told @ .., b'\n'] => told,
        _ => line,
    }
}

// Whether a case comes out as expected; if not, the report says so.
fn holds(report: &mut Page, case: Case) -> Result<bool, AllocError> {
    let line = verdict_line(report.heap, case.input)?;
    let got = told(&line);
    if got == case.expected {
        return Ok(true);
    }
    report.raw(case.name)?;
    report.text(" differs: got ")?;
    report.raw(got)?;
    report.text(", expected ")?;
    report.raw(case.expected)?;
    report.text("\n")?;
    Ok(false)
}

// The report on all cases of a text.
pub fn run(heap: Global, text: &[u8]) -> Result<Vec<u8>, AllocError> {
    let mut report = Page::new(heap);
    let mut cases = 0usize;
    let mut differ = 0usize;
    for case in Cases(text) {
        cases = cases.saturating_add(1);
        if !holds(&mut report, case)? {
            differ = differ.saturating_add(1);
        }
    }
    writeln!(report, "reading: {cases} cases, {differ} differ")?;
    Ok(report.bytes)
}
