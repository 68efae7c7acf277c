//! How many forms a text has, and how many names there are when it has been read.

use ops_reader::read_forms;
use ops_text::Symbols;
use std::test::Fail;

#[test]
fn forms_and_names_are_counted(rt: HostRuntime) -> Result<(), Fail> {
    // a text, its forms, and the names with `nil`, which is there before
    let rows: [(&[u8], u32, u32); 22] = [
        (b"", 0, 1),
        (b" \t\r\n\x0c", 0, 1),
        (b"; (literalize a", 0, 1),
        (b";;\n(literalize a);", 1, 2),
        (b"(literalize a x y)(make a ^x 1 ^y nil)", 2, 4),
        (b"(make make ^make -9223372036854775808 ^p +5)", 1, 3),
        (b"(p p (p) -->)", 1, 2),
        (b"(p r;(\n(a)-->;)\n)", 1, 3),
        (b"(literalize <<v>> <a a> . 1e 1.2.3 |1.5|)", 1, 8),
        (b"(literalize a -- a-->b -5x |a b| || |nil|)", 1, 7),
        (b"(strategy mea)(watch 0)(watch +3)(strategy lex)", 4, 1),
        (
            b"(make a ^x << ^x >> ^x --> ^x <> ^x <=> ^x - ^x |-|)",
            1,
            9,
        ),
        (b"(literalize nil|nil|nil)", 1, 1),
        // any byte may stand in a word
        (b"(make a\x00\xff ^\x80 |\x0a;)|)", 1, 4),
        // a name has one number, and upper and lower case differ
        (b"(make block ^|| \xff ^Block block ^nil ||)", 1, 5),
        // rules: variables, element variables and tests
        (
            b"(p r (a ^x <x> ^y 3) (b ^x x) --> (make b ^x <x>) (remove 1 2) (write))",
            1,
            6,
        ),
        (
            b"(p r { <e> (a) } { (a) <f> } -(b ^x = - ^y { > 5 <= <x> }) -->)",
            1,
            9,
        ),
        (
            b"(p r (a ^x << 1 b - >> ^x { } ^x < 5 ^x > -5) --> (halt))",
            1,
            6,
        ),
        (
            b"(p r (a) --> (write (crlf) (tabto 255) (rjust 0) a --> (compute 1)))",
            1,
            4,
        ),
        (
            b"(p r (a) --> (bind <x> (compute 1 // <y> \\\\ (2 * -3) - 4)) (write <x>))",
            1,
            5,
        ),
        (
            b"(p r (a) --> (modify <e> ^x (compute (1)) ^y <x>) (remove <e> 1))",
            1,
            6,
        ),
        (
            b"(p r (a ^x <->) (a ^x <=x>) --> (make p ^p p ^make bind))",
            1,
            9,
        ),
    ];
    for (text, forms, names) in rows {
        let mut symbols = Symbols::new(rt.alloc())?;
        assert!(rt; symbols.len() < 10 && text.len() < 1_000);
        let read = read_forms(rt.alloc(), text, &mut symbols)?;
        assert_eq!(rt; (read.len(), symbols.len()), (forms, names), "{text:?}");
    }
    Ok(())
}
