//! Definitions for tests.

pub(crate) const TINY: &str = "module TINY
  syntax Nat ::= z() | s(Nat) | plus(Nat, Nat)
  configuration <k> $PGM:Nat </k>
  rule plus(z(), N:Nat) => N
  rule plus(s(M:Nat), N:Nat) => plus(M, s(N))
endmodule
";

pub(crate) const LOOPING: &str =
    "module L syntax A ::= a() configuration <k> $PGM:A </k> rule a() => a() endmodule";

pub(crate) const MINUS: &str =
    "module E syntax E ::= Int | E \"-\" E configuration <k> $PGM:E </k> endmodule";

pub(crate) const MINUS_LEFT: &str =
    "module E syntax E ::= Int | E \"-\" E [left] configuration <k> $PGM:E </k> endmodule";

pub(crate) const NOTS: &str =
    "module A syntax A ::= \"z\" | \"!\" K configuration <k> $PGM:A </k> endmodule";

pub(crate) const STATEMENTS: &str = "module IMP
  syntax AExp ::= Int | Id | \"-\" Int
                | AExp \"/\" AExp [left, strict]
                > AExp \"+\" AExp [left, strict]
                | \"(\" AExp \")\" [bracket]
  syntax Stmt ::= Id \"=\" AExp \";\" [strict(2)]
                > Stmt Stmt [left]
  syntax Pgm  ::= \"int\" Ids \";\" Stmt
  syntax Ids  ::= List{Id,\",\"}
  configuration <k> $PGM:Pgm </k>
endmodule
";

pub(crate) const TWO_SORTS: &str = "module IMP
  syntax AExp ::= Int | Id | AExp \"+\" AExp [left, strict]
  syntax Stmt ::= Id \"=\" AExp \";\" [strict(2)]
  configuration <T> <k> $PGM:Stmt </k> <state> .Map </state> </T>
  rule I1:Int + I2:Int => I1 +Int I2
endmodule
";

/// Statements over whole numbers, in two modules.
pub(crate) const IMP: &str = "module IMP-SYNTAX
  syntax AExp  ::= Int | Id | \"-\" Int
                 | AExp \"/\" AExp [left, strict]
                 > AExp \"+\" AExp [left, strict]
                 | \"(\" AExp \")\" [bracket]
  syntax BExp  ::= Bool
                 | AExp \"<=\" AExp [seqstrict]
                 | \"!\" BExp [strict]
                 > BExp \"&&\" BExp [left, strict(1)]
                 | \"(\" BExp \")\" [bracket]
  syntax Block ::= \"{\" \"}\" | \"{\" Stmt \"}\"
  syntax Stmt  ::= Block
                 | Id \"=\" AExp \";\" [strict(2)]
                 | \"if\" \"(\" BExp \")\" Block \"else\" Block [strict(1)]
                 | \"while\" \"(\" BExp \")\" Block
                 > Stmt Stmt [left]
  syntax Pgm   ::= \"int\" Ids \";\" Stmt
  syntax Ids   ::= List{Id,\",\"}
endmodule

module IMP
  imports IMP-SYNTAX
  syntax KResult ::= Int | Bool
  configuration <T color=\"yellow\"> <k color=\"green\"> $PGM:Pgm </k> <state color=\"red\"> .Map </state> </T>
  rule <k> X:Id => I ...</k> <state>... X |-> I:Int ...</state>
  rule - I:Int => 0 -Int I
  rule I1:Int / I2:Int => I1 /Int I2 when I2 =/=Int 0
  rule I1:Int + I2:Int => I1 +Int I2
  rule I1:Int <= I2:Int => I1 <=Int I2
  rule ! T:Bool => notBool T
  rule true && B:BExp => B
  rule false && _ => false
  rule {} => . [structural]
  rule { S:Stmt } => S [structural]
  rule <k> X:Id = I:Int ; => . ...</k> <state>... X |-> (_ => I) ...</state>
  rule S1:Stmt S2:Stmt => S1 ~> S2 [structural]
  rule if (true) S:Block else _ => S
  rule if (false) _ else S:Block => S
  rule while (B:BExp) S:Block => if (B) { S while (B) S } else {} [structural]
  rule <k> int X:Id , Xs:Ids ; S:Stmt => int Xs ; S ...</k> <state> Rho:Map (.Map => X |-> 0) </state>
    when notBool (X in keys(Rho))
  rule int .Ids ; S:Stmt => S [structural]
endmodule
";

/// The lines of its rules.
pub(crate) const IMP_LINES: &str = "1 rule T,k,state
2 rule T,k
3 rule T,k
4 rule T,k
5 rule T,k
6 rule T,k
7 rule T,k
8 rule T,k
9 rule T,k
10 rule T,k
11 rule T,k,state
12 rule T,k
13 rule T,k
14 rule T,k
15 rule T,k
16 rule T,k,state
17 rule T,k
18 heat _/_ 1
19 cool _/_ 1
20 heat _/_ 2
21 cool _/_ 2
22 heat _+_ 1
23 cool _+_ 1
24 heat _+_ 2
25 cool _+_ 2
26 heat _<=_ 1
27 cool _<=_ 1
28 heat _<=_ 2
29 cool _<=_ 2
30 heat !_ 1
31 cool !_ 1
32 heat _&&_ 1
33 cool _&&_ 1
34 heat _=_; 2
35 cool _=_; 2
36 heat if(_)_else_ 1
37 cool if(_)_else_ 1
";

/// Commands that run side by side, each in a cell that is repeated, without the end of its module.
pub(crate) const PAR: &str = "module PAR
  syntax Cmd  ::= \"get\" Id | \"set\" Id Int | \"new\" Id Int | \"count\" | \"quit\" | \"pair\" | \"kill\"
                | \"spawn\" \"{\" Cmds \"}\"
  syntax Cmds ::= List{Cmd,\";\"}
  configuration <T>
    <threads> <thread multiplicity=\"*\"> <k> $PGM:Cmds </k> <env> .Map </env> </thread> </threads>
    <mem> x |-> 1 </mem>
  </T>
  rule C:Cmd ; Cs:Cmds => C ~> Cs
  rule .Cmds => .
  rule <k> get X:Id => . ...</k> <mem>... X |-> _ ...</mem>
  rule <k> set X:Id N:Int => . ...</k> <mem>... X |-> (_ => N) ...</mem>
  rule <k> new X:Id N:Int => . ...</k> <mem>... (.Map => X |-> N) ...</mem>
  rule <k> count => . ...</k> <mem> M:Map </mem> when size(M) >Int 0
  rule <thread>... <k> spawn { Cs:Cmds } => . ...</k> <env> E:Map </env> ...</thread>
    (.Bag => <thread> <k> Cs </k> <env> E </env> </thread>)
  rule (<thread>... <k> quit ...</k> ...</thread> => .Bag)
  rule <threads> <thread>... <k> pair => . ...</k> ...</thread> <thread>...</thread> </threads>
  rule <k> kill => . ...</k> (<thread>... <k> get _ ...</k> ...</thread> => .Bag)
";

/// The lines of its ten rules.
pub(crate) const PAR_LINES: &str = "1 rule T,threads,thread,k
2 rule T,threads,thread,k
3 rule T,threads,thread,k,mem
4 rule T,threads,thread,k,mem
5 rule T,threads,thread,k,mem
6 rule T,threads,thread,k,mem
7 rule T,threads,thread,k,env
8 rule T,threads,thread,k
9 rule T,threads,thread,k,thread
10 rule T,threads,thread,k,thread,k
";
