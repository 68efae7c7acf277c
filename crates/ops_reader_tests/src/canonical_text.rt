//! Texts with the canonical text of their forms, which reads back.

ghost use Rattle.std.specs.Prelude.{◌+◌, ◌^◌, ◌<◌, length};

use form_printer::laws::text_forms_are_named;
use form_printer::print_forms;
use ops_reader::{FormsRefusal, read_forms};
use ops_text::Symbols;
use std::alloc::Global;
use std::test::Fail;

/// The canonical text of the forms of a text.
fn canonical(alloc: Global, text: &[u8], symbols: &mut Symbols) -> Result<Vec<u8>, FormsRefusal>
    requires { length symbols.old + length text.now < 2 ^ 32 }
{
    let forms = read_forms(alloc, text, symbols)?;
    text_forms_are_named();
    Ok(print_forms(alloc, &forms, symbols)?)
}

#[test]
fn forms_are_printed_and_read_back(rt: HostRuntime) -> Result<(), Fail> {
    // a text, and the canonical text of its forms
    let rows: [(&[u8], &[u8]); 15] = [
        (b"; nothing", b""),
        (
            b"(literalize a x)(p  r {(a ^x {= 1}) <e>} -->(remove <e>)) ; note",
            b"(literalize a x)\n(p r { <e> (a ^x 1) } --> (remove <e>))\n",
        ),
        (
            b"(strategy mea)(strategy lex)(watch +2)",
            b"(strategy mea)\n(strategy lex)\n(watch 2)\n",
        ),
        (
            b"(make|a b|^||nil^|;||(|^|<||<v>|^|-->||-|)",
            b"(make |a b| ^|| nil ^|;| |(| ^|<| |<v>| ^|-->| |-|)\n",
        ),
        (
            b"(make |12| ^|-5| |+5| ^|1.5| |1e5| ^|1.2.3| |p|)",
            b"(make |12| ^|-5| |+5| ^|1.5| |1e5| ^1.2.3 p)\n",
        ),
        (
            b"(make a ^x = ^x --> ^x << ^x >> ^x - ^x + ^x <=>)",
            b"(make a ^x |=| ^x |-->| ^x |<<| ^x |>>| ^x |-| ^x + ^x |<=>|)\n",
        ),
        (
            b"(make \xc3\xa4 ^|\xff\n| \xff ^|\x80| |\x00|)",
            b"(make \xc3\xa4 ^|\xff\n| \xff ^\x80 \x00)\n",
        ),
        (
            b"(make a ^x -5 ^x +7 ^x -0 ^x 007 ^x -9223372036854775808)",
            b"(make a ^x -5 ^x 7 ^x 0 ^x 7 ^x -9223372036854775808)\n",
        ),
        (
            b"(p r (a ^x {} ^x << >> ^x {<> 1 <v>} ^x {<< a 1 >>}) - (b) -->)",
            b"(p r (a ^x { } ^x << >> ^x { <> 1 <v> } ^x << a 1 >>) -(b) -->)\n",
        ),
        (
            b"(p r (a ^x = <v> ^x < 1 ^x <= 1 ^x > 1 ^x >= - ^x <=> <->) {<e> (b)} -->)",
            b"(p r (a ^x <v> ^x < 1 ^x <= 1 ^x > 1 ^x >= |-| ^x <=> <->) { <e> (b) } -->)\n",
        ),
        (
            b"(p r (a) --> (make a ^x <v>)(modify 1 ^x nil ^x <)(modify <e>)(halt))",
            b"(p r (a) --> (make a ^x <v>) (modify 1 ^x nil ^x |<|) (modify <e>) (halt))\n",
        ),
        (
            b"(p r (a) --> (remove +1 <e>)(bind <v> |a b|)(write))",
            b"(p r (a) --> (remove 1 <e>) (bind <v> |a b|) (write))\n",
        ),
        (
            b"(p r (a) --> (write a 1 <v>(crlf)(tabto 05)(rjust 12)(compute 1)))",
            b"(p r (a) --> (write a 1 <v> (crlf) (tabto 5) (rjust 12) (compute 1)))\n",
        ),
        (
            b"(p r (a) --> (bind <v> (compute 1 + (2 - <v>) * ((3)) // -4 \\\\ 5)))",
            b"(p r (a) --> (bind <v> (compute 1 + (2 - <v>) * ((3)) // -4 \\\\ 5)))\n",
        ),
        (
            b"(p p (p ^p p) --> (make make ^make make)(write halt))",
            b"(p p (p ^p p) --> (make make ^make make) (write halt))\n",
        ),
    ];
    for (text, expected) in rows {
        let mut symbols = Symbols::new(rt.alloc())?;
        assert!(rt; symbols.len() < 10 && text.len() < 1_000);
        let printed = canonical(rt.alloc(), text, &mut symbols)?;
        assert_eq!(rt; printed.as_slice(), expected);
        let names = symbols.len();
        assert!(rt; names < 1_000 && printed.len() < 1_000);
        let again = canonical(rt.alloc(), &printed, &mut symbols)?;
        assert_eq!(rt; again.as_slice(), expected);
        assert_eq!(rt; symbols.len(), names);
    }
    Ok(())
}
