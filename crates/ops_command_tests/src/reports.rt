//! What a report holds: its status, and the choices, the memory and the next tag of its run.

use crate::setting::call;
use ops_command::Report;
use ops_text::OutOfMemory;
use std::alloc::Global;
use std::test::Fail;

/// The words, the program and the memory file of a call, and its status and its text.
type Row = (
    &'static [&'static str],
    &'static str,
    &'static str,
    &'static str,
    &'static str,
);

#[test]
fn a_call_has_the_status_that_it_tells(rt: HostRuntime) -> Result<(), Fail> {
    let rows: [Row; 13] = [
        (
            &["run", "p", "m"],
            "(literalize a x)(make a ^x 1)(p hi (a) --> (write hello))",
            "(make a ^x 2)",
            "Quiet",
            "hello hello\n; quiet, firings 2, elements 2, next 3\n",
        ),
        (
            &["run", "p", "--firings", "3"],
            "(literalize a x)(make a)(p r (a) --> (make a))",
            "",
            "Spent { n: 3 }",
            "; spent, firings 3, elements 4, next 5\n",
        ),
        (
            &["run"],
            "",
            "",
            "Usage { kind: Words }",
            "ops: usage: words\n",
        ),
        (
            &["run", "p", "--firings", ""],
            "",
            "",
            "Usage { kind: Number }",
            "ops: usage: number\n",
        ),
        (
            &["run", "q", "m"],
            "",
            "",
            "ReadFault { file: Program }",
            "ops: cannot read program\n",
        ),
        (
            &["run", "p", "q"],
            "",
            "",
            "ReadFault { file: Memory }",
            "ops: cannot read memory\n",
        ),
        (
            &["run", "p"],
            "(p r (a ^x 1) --> (halt)",
            "",
            "Syntax { file: Program, at: 24, kind: Unclosed }",
            "ops: syntax error in program at byte 24: unclosed\n",
        ),
        (
            &["run", "p", "m"],
            "(literalize a x)",
            "(make a) (external f)",
            "Syntax { file: Memory, at: 10, kind: NotInProfile }",
            "ops: syntax error in memory at byte 10: not in profile\n",
        ),
        (
            &["run", "p"],
            "(literalize a x)(p u (a) -(a ^x <w>) --> (write <w>))",
            "",
            "Check { file: Program, form: 2, kind: Unbound }",
            "ops: check error in program, form 2: unbound\n",
        ),
        (
            &["run", "p", "m"],
            "(literalize a x)",
            "(make a)(make a ^y 1)",
            "Check { file: Memory, form: 2, kind: UnknownAttribute }",
            "ops: check error in memory, form 2: unknown attribute\n",
        ),
        (
            &["run", "p"],
            "(literalize a x)(make a ^x 1)(p r (a ^x 1) --> (halt))",
            "",
            "Halted",
            "; halted, firings 1, elements 1, next 2\n",
        ),
        (
            &["run", "p"],
            "(literalize a x)(make a ^x 1)(p r (a ^x <v>) --> (write no) (bind <w> (compute <v> // 0)))",
            "",
            "Fault { choice: Choice { rule: 0, tags: Sequence { elements: [1] } }, action: 2, cause: DivideByZero }",
            "; fault, rule r, action 2, divide by zero, tags 1, firings 0, elements 1, next 2\n",
        ),
        (
            &["run", "p", "m"],
            "",
            "",
            "Quiet",
            "; quiet, firings 0, elements 0, next 1\n",
        ),
    ];
    for (texts, program, memory, status, printed) in rows {
        let (report, held) = call(rt.alloc(), texts, program, memory)?;
        let told = format!(in rt.alloc(); "{:?}", report.status)?;
        assert_eq!(rt; told.as_str(), status, "status of {printed}");
        assert_eq!(rt; held.as_slice(), printed.as_bytes(), "{printed}");
    }
    Ok(())
}

/// The choices of a report, the elements of its memory and its next tag, in a line.
fn told(alloc: Global, report: &Report) -> Result<String, OutOfMemory> {
    let mut text = String::new(alloc);
    for place in 0..report.journal.len() {
        let entry = report.journal.entry(place);
        let tags = entry.tags;
        text.push_str(&format!(in alloc; "{}{tags:?} ", entry.rule)?)?;
    }
    text.push_str("|")?;
    for at in 0..report.memory.len() {
        let element = report.memory.at(at);
        let values = element.values;
        text.push_str(&format!(in alloc; " {}:{}{values:?}", element.tag, element.class)?)?;
    }
    text.push_str(&format!(in alloc; " | {}", report.journal.next())?)?;
    Ok(text)
}

#[test]
fn a_report_tells_choices_memory_and_next_tag(rt: HostRuntime) -> Result<(), Fail> {
    let rows = [
        ("", "| | 1"),
        (
            "(literalize a x)(make a ^x 1)(p hi (a) --> (write hello))",
            "0[1] | 1:0[Int(1)] | 2",
        ),
        // each instantiation fires once, the younger one first
        (
            "(literalize a x)(literalize b x)(make a ^x 7)(make a ^x 8)(make b ^x 8)(p r (a ^x <v>) --> (remove 1))",
            "0[2] 0[1] | 3:1[Int(8)] | 4",
        ),
        // two condition elements ask for one value, and one element matches two condition elements
        (
            "(literalize a x)(literalize b x)(make a ^x 7)(make a ^x 8)(make b ^x 8)(p r (a ^x <v>) (b ^x <v>) --> (remove 2 1))",
            "0[2, 3] | 1:0[Int(7)] | 4",
        ),
        (
            "(literalize a x)(make a ^x 7)(p r (a ^x <v>) (a ^x <v>) --> (remove 1 2))",
            "0[1, 1] | | 2",
        ),
        // what is made has the next tags, in the order of the actions
        (
            "(literalize a x)(literalize b x)(make a ^x 7)(p r (a ^x <v>) --> (make b ^x <v>) (remove 1 1) (make b))",
            "0[1] | 2:1[Int(7)] 3:1[Sym(0)] | 4",
        ),
        // a negated condition element sees what is bound to its left, and a rule blocks itself by what it makes
        (
            "(literalize a x)(literalize b x)(make a ^x 7)(make a ^x 8)(make b ^x 8)(p r (a ^x <v>) -(b ^x <v>) --> (make b ^x <v>))",
            "0[1] | 1:0[Int(7)] 2:0[Int(8)] 3:1[Int(8)] 4:1[Int(7)] | 5",
        ),
        (
            "(literalize a x)(literalize b x)(make a ^x 7)(make a ^x 7)(p r (a ^x <v>) -(b ^x <v>) --> (make b ^x <v>))",
            "0[2] | 1:0[Int(7)] 2:0[Int(7)] 3:1[Int(7)] | 4",
        ),
        // a refused program leaves nothing
        ("(make a)", "| | 1"),
    ];
    for (program, want) in rows {
        let (report, _) = call(rt.alloc(), &["run", "p"], program, "")?;
        let told = told(rt.alloc(), &report)?;
        assert_eq!(rt; told.as_str(), want, "{program}");
    }
    Ok(())
}
