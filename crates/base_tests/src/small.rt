use k_terms::depth;
use small_form::{language, read_definition, read_program};
use std::test::Fail;

const TINY: &str = "module TINY
  syntax Nat ::= z() | s(Nat) | plus(Nat, Nat)
  configuration <k> $PGM:Nat </k>
  rule plus(z(), N:Nat) => N
  rule plus(s(M:Nat), N:Nat) => plus(M, s(N))
endmodule
";

#[test]
fn reads_programs(rt: HostRuntime) -> Result<(), Fail> {
    let Some(small) = read_definition(rt.alloc(), TINY.as_bytes())? else {
        panic!(rt; "TINY is a definition of the small form");
    };
    let programs = [
        ("plus(s(z()),z())", Some(3)),
        (" s ( z ( ) )\n", Some(2)),
        ("plus(z())", None),
        ("z() z()", None),
        ("s(N)", None),
        ("", None),
        ("q()", None),
    ];
    for (text, expected) in programs {
        let value = read_program(rt.alloc(), small.productions.as_slice(), text.as_bytes())?;
        assert_eq!(rt;
            value.as_ref().map(|value| depth(value)),
            expected,
            "{text}"
        );
    }
    let defs = language(rt.alloc(), small)?;
    assert_eq!(rt; defs.rules().len(), 2);
    assert_eq!(rt;
        defs.label(2).map(|label| label.as_slice()),
        Some(b"s".as_slice())
    );
    Ok(())
}

#[test]
fn reads_definitions(rt: HostRuntime) -> Result<(), Fail> {
    let texts = [
        (
            "module L syntax A ::= a() configuration <k> $PGM:A </k> rule a() => a() endmodule",
            true,
        ),
        (
            "module L syntax A::=a()|f(A,A)configuration <k> $PGM:A </k>endmodule",
            true,
        ),
        (
            "module L syntax A ::= f(A) configuration <k> $PGM:A </k> rule f(X:A) => X endmodule\n",
            true,
        ),
        (
            "module L syntax A ::= f(A) configuration <k> $PGM:A </k> rule f(X:A) => Y endmodule",
            false,
        ),
        (
            "module L syntax A ::= f(A) configuration <k> $PGM:A </k> rule f(x:A) => x endmodule",
            false,
        ),
        (
            "module L syntax A ::= f(A) configuration <k> $PGM:A </k> rule X:A => X endmodule",
            false,
        ),
        (
            "module L syntax A ::= f(A, A) configuration <k> $PGM:A </k> rule f(X:A, X:A) => X endmodule",
            false,
        ),
        (
            "module L syntax A ::= a() | a(A) configuration <k> $PGM:A </k> endmodule",
            false,
        ),
        (
            "module L syntax Int ::= a() configuration <k> $PGM:Int </k> endmodule",
            false,
        ),
        (
            "module L syntax A ::= rule() configuration <k> $PGM:A </k> endmodule",
            false,
        ),
        (
            "module L syntax A ::= a() configuration <k> $PGM:A </k>",
            false,
        ),
        (
            "module L syntax A ::= a() configuration <k> $PGM:A </k> endmodule more",
            false,
        ),
    ];
    for (text, expected) in texts {
        assert_eq!(rt;
            read_definition(rt.alloc(), text.as_bytes())?.is_some(),
            expected,
            "{text}"
        );
    }
    Ok(())
}
