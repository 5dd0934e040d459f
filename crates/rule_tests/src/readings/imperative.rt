use super::{Cell, outcomes};
use rule_terms::Kind;
use std::test::Fail;

/// An imperative language; its configuration here is the one cell `k`, its rules speak of the cells below.
const IMP: &str = r#"module IMP
  syntax AExp  ::= Int | Id | "-" Int
                 | AExp "/" AExp [left, strict]
                 > AExp "+" AExp [left, strict]
                 | "(" AExp ")" [bracket]
  syntax BExp  ::= Bool
                 | AExp "<=" AExp [seqstrict]
                 | "!" BExp [strict]
                 > BExp "&&" BExp [left, strict(1)]
                 | "(" BExp ")" [bracket]
  syntax Block ::= "{" "}" | "{" Stmt "}"
  syntax Stmt  ::= Block
                 | Id "=" AExp ";" [strict(2)]
                 | "if" "(" BExp ")" Block "else" Block [strict(1)]
                 | "while" "(" BExp ")" Block
                 > Stmt Stmt [left]
  syntax Pgm   ::= "int" Ids ";" Stmt
  syntax Ids   ::= List{Id,","}
  syntax KResult ::= Int | Bool
  configuration <k> $PGM:Pgm </k>
  rule <k> X:Id => I ...</k> <state>... X |-> I:Int ...</state>
  rule - I:Int => 0 -Int I
  rule I1:Int / I2:Int => I1 /Int I2 when I2 =/=Int 0
  rule I1:Int + I2:Int => I1 +Int I2
  rule I1:Int <= I2:Int => I1 <=Int I2
  rule ! T:Bool => notBool T
  rule true && B:BExp => B
  rule false && _ => false
  rule {} => . [structural]
  rule { S:Stmt } => S [structural]
  rule <k> X:Id = I:Int ; => . ...</k> <state>... X |-> (_ => I) ...</state>
  rule S1:Stmt S2:Stmt => S1 ~> S2 [structural]
  rule if (true) S:Block else _ => S
  rule if (false) _ else S:Block => S
  rule while (B:BExp) S:Block => if (B) { S while (B) S } else {} [structural]
  rule <k> int X:Id , Xs:Ids ; S:Stmt => int Xs ; S ...</k> <state> Rho:Map (.Map => X |-> 0) </state>
    when notBool (X in keys(Rho))
  rule int .Ids ; S:Stmt => S [structural]
endmodule
"#;

const CELLS: [Cell; 3] = [
    ("T", None, Kind::Cells),
    ("k", Some(0), Kind::Seq),
    ("state", Some(0), Kind::Map),
];

/// The sorts K, KItem, Int, Bool, Id and Map have the numbers 0, 1, 3, 4, 6 and 7; AExp, BExp, Block, Stmt, Pgm and Ids 10 to 15. Marks
/// are given to tags in the order of the text; the cell of a rule without tags has the first.
const DRAFTS: &str = "6 3 0 7 | 1/0 0 ..2 2/1 { 0: 1 } ..3 => 1/0 1 ..2 2/1 { 0: 1 } ..3
3 0 | 1/0 p3( 0 ) ..1 => 1/0 sub( #0 0 ) ..1
3 3 0 | 1/0 p4( 0 1 ) ..2 => 1/0 div( 0 1 ) ..2, when ne( 1 #0 )
3 3 0 | 1/0 p5( 0 1 ) ..2 => 1/0 add( 0 1 ) ..2
3 3 0 | 1/0 p8( 0 1 ) ..2 => 1/0 le( 0 1 ) ..2
4 0 | 1/0 p9( 0 ) ..1 => 1/0 not( 0 ) ..1
11 0 | 1/0 p10( true 0 ) ..1 => 1/0 0 ..1
11 0 | 1/0 p10( false 0 ) ..1 => 1/0 false ..1
0 | 1/0 p12( ) ..0 => 1/0 ..0
13 0 | 1/0 p13( 0 ) ..1 => 1/0 0 ..1
6 3 0 7 1 | 1/0 p15( 0 1 ) ..2 2/1 { 0: 4 } ..3 => 1/0 ..2 2/1 { 0: 1 } ..3
13 13 0 | 1/0 p18( 0 1 ) ..2 => 1/0 0 1 ..2
12 12 0 | 1/0 p16( true 0 1 ) ..2 => 1/0 0 ..2
12 12 0 | 1/0 p16( false 0 1 ) ..2 => 1/0 1 ..2
11 12 0 | 1/0 p17( 0 1 ) ..2 => 1/0 p16( 0 p13( p18( 1 p17( 0 1 ) ) ) p12( ) ) ..2
6 15 13 0 7 | 1/0 p19( p20[ 0 ..1 ] 2 ) ..3 2/1 { } ..4 => 1/0 p19( 1 2 ) ..3 2/1 { 0: #0 } ..4, when not( in( 0 4 ) )
13 0 | 1/0 p19( p20[ ] 0 ) ..1 => 1/0 0 ..1
";

#[test]
fn reads_an_imperative_language(rt: HostRuntime) -> Result<(), Fail> {
    let lines = outcomes(rt.alloc(), IMP, &CELLS)?;
    assert_eq!(rt; lines.as_str(), DRAFTS, "{lines}");
    Ok(())
}
