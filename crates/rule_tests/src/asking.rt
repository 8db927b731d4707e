use files::read_rules;
use std::alloc::Global;
use std::test::Fail;
use terms::Refusal;

// What a file answers: the numbers of rules and of labels, or the refusal with line and column.
pub(crate) type Answer = Result<(usize, usize), (Refusal, usize, usize)>;

pub(crate) fn ask(heap: Global, bytes: &[u8]) -> Result<Answer, Fail> {
    match read_rules(heap, bytes) {
        Ok(table) => Ok(Ok((table.rule_count(), table.label_count()))),
        Err(fault) => {
            let Some(report) = fault.report() else {
                return Err(Fail::new("no memory"));
            };
            Ok(Err((report.refusal, report.line, report.column)))
        }
    }
}
