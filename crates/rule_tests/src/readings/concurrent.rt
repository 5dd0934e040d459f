use super::{Cell, outcomes};
use rule_terms::Kind;
use std::test::Fail;

/// A language of threads; its configuration here is the one cell `k`, its rules speak of the cells below.
const PAR: &str = r#"module PAR
  syntax Cmd  ::= "get" Id | "set" Id Int | "new" Id Int | "count" | "quit" | "pair" | "kill"
                | "spawn" "{" Cmds "}"
  syntax Cmds ::= List{Cmd,";"}
  configuration <k> $PGM:Cmds </k>
  rule C:Cmd ; Cs:Cmds => C ~> Cs
  rule .Cmds => .
  rule <k> get X:Id => . ...</k> <mem>... X |-> _ ...</mem>
  rule <k> set X:Id N:Int => . ...</k> <mem>... X |-> (_ => N) ...</mem>
  rule <k> new X:Id N:Int => . ...</k> <mem>... (.Map => X |-> N) ...</mem>
  rule <k> count => . ...</k> <mem> M:Map </mem> when size(M) >Int 0
  rule <thread>... <k> spawn { Cs:Cmds } => . ...</k> <env> E:Map </env> ...</thread>
    (.Bag => <thread> <k> Cs </k> <env> E </env> </thread>)
  rule (<thread>... <k> quit ...</k> ...</thread> => .Bag)
  rule <threads> <thread>... <k> pair => . ...</k> ...</thread> <thread>...</thread> </threads>
  rule <k> kill => . ...</k> (<thread>... <k> get _ ...</k> ...</thread> => .Bag)
endmodule
"#;

const CELLS: [Cell; 6] = [
    ("T", None, Kind::Cells),
    ("threads", Some(0), Kind::Cells),
    ("thread", Some(1), Kind::Cells),
    ("k", Some(2), Kind::Seq),
    ("env", Some(2), Kind::Map),
    ("mem", Some(0), Kind::Map),
];

/// The sorts K, KItem, Int, Id, Map and Bag have the numbers 0, 1, 3, 6, 7 and 9; Cmd and Cmds 10 and 11.
const DRAFTS: &str = "10 11 0 | 3/0 p9[ 0 ..1 ] ..2 => 3/0 0 1 ..2
0 | 3/0 p9[ ] ..0 => 3/0 ..0
6 0 7 1 | 3/0 p1( 0 ) ..1 5/1 { 0: 3 } ..2 => 3/0 ..1 5/1 { 0: 3 } ..2
6 3 0 7 1 | 3/0 p2( 0 1 ) ..2 5/1 { 0: 4 } ..3 => 3/0 ..2 5/1 { 0: 1 } ..3
6 3 0 7 | 3/0 p3( 0 1 ) ..2 5/1 { } ..3 => 3/0 ..2 5/1 { 0: 1 } ..3
0 7 | 3/0 p4( ) ..0 5/1 { } ..1 => 3/0 ..0 5/1 { } ..1, when gt( size( 1 ) #0 )
9 11 0 7 | 2/0 ( 3/1 p8( 1 ) ..2 4/2 { } ..3 ..0 ) => 2/0 ( 3/1 ..2 4/2 { } ..3 ..0 ) 2/3 ( 3/4 1 4/5 { } ..3 )
9 0 | 2/0 ( 3/1 p5( ) ..1 ..0 ) =>
9 0 9 | 1/0 ( 2/1 ( 3/2 p6( ) ..1 ..0 ) 2/3 ( ..2 ) ) => 1/0 ( 2/1 ( 3/2 ..1 ..0 ) 2/3 ( ..2 ) )
0 9 6 0 | 3/0 p7( ) ..0 2/1 ( 3/2 p1( 2 ) ..3 ..1 ) => 3/0 ..0
";

#[test]
fn reads_a_language_of_threads(rt: HostRuntime) -> Result<(), Fail> {
    let lines = outcomes(rt.alloc(), PAR, &CELLS)?;
    assert_eq!(rt; lines.as_str(), DRAFTS, "{lines}");
    Ok(())
}
