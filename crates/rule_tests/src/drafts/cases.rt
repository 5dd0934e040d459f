use super::samples::Case;

/// Rules of an imperative and of a concurrent language.
pub(super) const RULES: [Case; 8] = [
    // a sum of two whole numbers, with a condition
    Case {
        text: "I/J>I/JwJ!0",
        sorts: "I.3 J.3",
        cells: "to.7",
        contents: "0 sides 0 2 4.2 101.1 106.1 3 4 6 23.2 101.1 106.1 109.3",
        condition: "8 0 2 33.2",
        wanted: "3 3 0 | 1/0 p4( 0 1 ) ..2 => 1/0 div( 0 1 ) ..2, when ne( 1 #0 )",
    },
    // the value of a name is looked up
    Case {
        text: "<X>I./<.X:I./",
        sorts: "X.6 I.3",
        cells: "content.1.0.r.1 content.2.6.lr.8",
        contents: "1 sides 0 101.1 106.1 1 2 101.1 106.1 109.3; 8 sides 0 2 107.1 101.2 109.1.- 110.1",
        condition: "",
        wanted: "6 3 0 7 | 1/0 0 ..2 2/1 { 0: 1 } ..3 => 1/0 1 ..2 2/1 { 0: 1 } ..3",
    },
    // it is set
    Case {
        text: "<X=I;>../<.X:(_>I)./",
        sorts: "X.6 I.3",
        cells: "content.1.0.r.1 content.2.9.lr.11",
        contents: "1 sides 0 2 15.2 101.1 106.1 4 5 103.1 106.1 109.3; 11 sides 0 2 3 4 5 6 108.5 101.2 109.1.- 110.1",
        condition: "",
        wanted: "6 3 0 7 1 | 1/0 p15( 0 1 ) ..2 2/1 { 0: 4 } ..3 => 1/0 ..2 2/1 { 0: 1 } ..3",
    },
    // a name is declared
    Case {
        text: "<X>../<R(.>X:0)/wn(XiR)",
        sorts: "X.6 R.7",
        cells: "content.1.0.r.1 content.2.6.-.7",
        contents: "1 sides 0 101.1 106.1 1 2 103.1 106.1 109.3; 7 sides 0 102.1 1 2 105.1 109.1.- 3 4 6 107.1 101.2 109.1.- 7 106.5 109.2.- 110.1",
        condition: "17 2 4 36.2 37.1",
        wanted: "6 0 7 | 1/0 0 ..1 2/1 { } ..2 => 1/0 ..1 2/1 { 0: #0 } ..2, when not( in( 0 2 ) )",
    },
    // a thread begins
    Case {
        text: "<.<{C}>../<E/./(b><<C/<E//)",
        sorts: "C.13 E.7",
        cells: "content.1.2.r.3 content.3.10.-.11 cells.4.0.lr.2 nothing content.1.19.-.20 content.3.22.-.23 cells.4.18.-.2 change.15.1.1",
        contents: "3 sides 1 13.1 101.1 106.1 3 4 103.1 106.1 109.3; 11 sides 0 102.1 109.1.- 110.1; 20 sides 0 101.1 106.1 108.1; 23 sides 0 102.1 109.1.- 110.1",
        condition: "",
        wanted: "9 13 0 7 | 4/0 ( 1/1 p13( 1 ) ..2 3/2 { } ..3 ..0 ) => 4/0 ( 1/1 ..2 3/2 { } ..3 ..0 ) 4/3 ( 1/4 1 3/5 { } ..3 )",
    },
    // a thread ends
    Case {
        text: "(<.<q././>b)",
        sorts: "",
        cells: "content.1.3.r.4 cells.4.1.lr.1 nothing change.0.1.1",
        contents: "4 sides 12.0 101.1 106.1 108.1",
        condition: "",
        wanted: "9 0 | 4/0 ( 1/1 p12( ) ..1 ..0 ) =>",
    },
    // a body that is a change, and a cell whose cells change
    Case {
        text: "<<X//><<X//",
        sorts: "X.6",
        cells: "content.1.1.-.2 cells.4.0.-.1 content.1.7.-.8 cells.4.6.-.1 becomes.1",
        contents: "2 sides 0 101.1 106.1 108.1; 8 sides 0 101.1 106.1 108.1",
        condition: "",
        wanted: "6 | 4/0 ( 1/1 0 ) => 4/2 ( 1/3 0 )",
    },
    Case {
        text: "<<X/><<X//./",
        sorts: "X.6",
        cells: "content.1.1.-.2 content.1.6.-.7 cells.4.5.-.1 changed.0.0.r.1.1",
        contents: "2 sides 0 101.1 106.1 108.1; 7 sides 0 101.1 106.1 108.1",
        condition: "",
        wanted: "6 9 | 0/0 ( 1/1 0 ..1 ) => 0/0 ( 4/2 ( 1/3 0 ) ..1 )",
    },
];

/// Sequences, lists, and contents by expressions.
pub(super) const WHOLES: [Case; 5] = [
    // a list with a rest, and its parts in a sequence
    Case {
        text: "X,Y>X~Y",
        sorts: "X.6 Y.15",
        cells: "to.7",
        contents: "0 sides 0 20.1.2 101.1 106.1 3 4 101.1 106.1 6 101.1 107.2 109.3",
        condition: "",
        wanted: "6 15 0 | 1/0 p20[ 0 ..1 ] ..2 => 1/0 0 1 ..2",
    },
    // a sequence in parentheses whose last part is its rest, and that alone as a whole content
    Case {
        text: "<f(X~R)>R/",
        sorts: "X.6 R.0",
        cells: "content.1.0.-.1",
        contents: "1 sides 2 4 0.2.- 21.1 101.1 106.1 6 7 102.1 106.1 109.3",
        condition: "",
        wanted: "6 0 | 1/0 p21( < 0 ..1 > ) => 1/0 ..1",
    },
    // an item and a variable of sort K at an argument of sort K
    Case {
        text: "<fX~fR/",
        sorts: "X.6 R.0",
        cells: "content.1.0.-.1",
        contents: "1 sides 1 21.1 101.1 106.1 4 21.1 101.1 107.2 108.1",
        condition: "",
        wanted: "6 0 | 1/0 p21( < 0 > ) p21( 1 ) => 1/0 p21( < 0 > ) p21( 1 )",
    },
    // a map by an expression
    Case {
        text: "<R>R[1:2]/",
        sorts: "R.7",
        cells: "content.2.0.-.1",
        contents: "1 made 0 102.1 109.1.- 1 2 4 6 40.3 112.3",
        condition: "",
        wanted: "7 | 2/0 { } ..0 => 2/0 made set( 0 #1 #2 )",
    },
    // items of a list before the rest of a `...`, and one value
    Case {
        text: "<lX./<.lX/<0/",
        sorts: "X.6",
        cells: "content.5.0.r.1 content.5.5.l.7 content.6.10.-.11",
        contents: "1 sides 1 101.1 107.1.- 108.1; 7 sides 1 101.1 107.1.- 108.1; 11 sides 0 101.1",
        condition: "",
        wanted: "6 8 8 | 5/0 0 ..1 5/1 ..2 0 6/2 #0 => 5/0 0 ..1 5/1 ..2 0 6/2 #0",
    },
];

/// Forms that no rule has, and variables that the left side does not have.
pub(super) const REFUSED: [Case; 19] = [
    // a variable of sort K before the last part
    Case {
        text: "<R~X>./",
        sorts: "R.0 X.6",
        cells: "content.1.0.-.1",
        contents: "1 sides 0 102.1 106.1 2 101.1 107.2 3 4 103.1 106.1 109.3",
        condition: "",
        wanted: "form 1",
    },
    // the same in parentheses
    Case {
        text: "<f(R~X)/",
        sorts: "R.0 X.6",
        cells: "content.1.0.-.1",
        contents: "1 sides 2 4 0.2.- 21.1 101.1 106.1 108.1",
        condition: "",
        wanted: "form 3",
    },
    // a sequence with a rest in a content that is open
    Case {
        text: "<X~R./",
        sorts: "R.0 X.6",
        cells: "content.1.0.r.1",
        contents: "1 sides 0 101.1 106.1 2 102.1 107.2 108.1",
        condition: "",
        wanted: "form 1",
    },
    // `...` at the left of a sequence
    Case {
        text: "<.X/",
        sorts: "X.6",
        cells: "content.1.0.l.2",
        contents: "2 sides 0 101.1 106.1 108.1",
        condition: "",
        wanted: "form 1",
    },
    // two rests of a map
    Case {
        text: "<.R/",
        sorts: "R.7",
        cells: "content.2.0.l.2",
        contents: "2 sides 0 102.1 109.1.- 110.1",
        condition: "",
        wanted: "form 1",
    },
    // `...` beside one value
    Case {
        text: "<0./",
        sorts: "",
        cells: "content.6.0.r.1",
        contents: "1 sides 0 101.1",
        condition: "",
        wanted: "form 1",
    },
    // an operator on the left side
    Case {
        text: "<a(1+X)/",
        sorts: "X.3",
        cells: "content.1.0.-.1",
        contents: "1 sides.3 2 4 25.2 101.1 106.1 108.1",
        condition: "",
        wanted: "form 3",
    },
    // a change of parts within another
    Case {
        text: "<(X>(X>X))/",
        sorts: "X.6",
        cells: "content.1.0.-.1",
        contents: "1 sides 0 1 101.1 106.1 2 3 4 101.1 106.1 5 6 101.1 106.1 7 105.5 106.1 8 105.5 106.1 108.1",
        condition: "",
        wanted: "form 4",
    },
    // a change of the content of a cell that is removed
    Case {
        text: "(<X>./>b)",
        sorts: "X.6",
        cells: "content.1.1.-.2 nothing change.0.1.1",
        contents: "2 sides 0 101.1 106.1 1 2 103.1 106.1 109.3",
        condition: "",
        wanted: "form 2",
    },
    // a change in parentheses on the right side of one of the whole content
    Case {
        text: "<X>(X>X)/",
        sorts: "X.6",
        cells: "content.1.0.-.1",
        contents: "1 sides 0 101.1 106.1 1 2 3 101.1 106.1 4 5 101.1 106.1 6 105.5 106.1 109.3",
        condition: "",
        wanted: "form 3",
    },
    // one behind an item of a cell that is removed
    Case {
        text: "(<X~(X>X)/>b)",
        sorts: "X.6",
        cells: "content.1.1.-.2 nothing change.0.1.1",
        contents: "2 sides 0 101.1 106.1 2 3 101.1 106.1 4 5 101.1 106.1 6 105.5 107.2 108.1",
        condition: "",
        wanted: "form 4",
    },
    // one of an entry's value
    Case {
        text: "(<X:(X>X)/>b)",
        sorts: "X.6",
        cells: "content.2.1.-.2 nothing change.0.1.1",
        contents: "2 sides 0 2 3 4 5 6 108.5 101.2 109.1.- 110.1",
        condition: "",
        wanted: "form 4",
    },
    // a change of the content of a removed cell, behind a `...`
    Case {
        text: "(<.lX>./>b)",
        sorts: "X.6",
        cells: "content.5.1.l.3 nothing change.0.1.1",
        contents: "3 sides 1 101.1 107.1.- 2 3 104.1 107.1.- 109.3",
        condition: "",
        wanted: "form 2",
    },
    // a change of all cells of a removed cell
    Case {
        text: "(<<X/>b/>b)",
        sorts: "X.6",
        cells: "content.1.2.-.3 nothing changed.4.1.-.1.1 nothing change.0.1.1",
        contents: "3 sides 0 101.1 106.1 108.1",
        condition: "",
        wanted: "form 2",
    },
    // a change of cells within another
    Case {
        text: "((<X/>b)>b)",
        sorts: "X.6",
        cells: "content.1.2.-.3 nothing change.1.1.1 nothing change.0.1.1",
        contents: "3 sides 0 101.1 106.1 108.1",
        condition: "",
        wanted: "form 1",
    },
    // the rest of a list between items
    Case {
        text: "<lXLlX/",
        sorts: "X.6 L.8",
        cells: "content.5.0.-.1",
        contents: "1 sides 1 101.1 2 102.1 4 101.1 107.3.- 108.1",
        condition: "",
        wanted: "form 1",
    },
    // two names, of which the first is told
    Case {
        text: "<X>YZ/",
        sorts: "X.6 Y.10 Z.10",
        cells: "content.1.0.-.1",
        contents: "1 sides 0 101.1 106.1 1 2 3 5.2 101.1 106.1 109.3",
        condition: "",
        wanted: "unbound 89",
    },
    // a variable without a name
    Case {
        text: "<X>_/",
        sorts: "X.6",
        cells: "content.1.0.-.1",
        contents: "1 sides 0 101.1 106.1 1 2 101.1 106.1 109.3",
        condition: "",
        wanted: "unbound _",
    },
    // the rest of a new cell
    Case {
        text: "(b><.<.//)",
        sorts: "",
        cells: "nothing content.1.5.-.6 cells.4.3.l.1 change.0.1.1",
        contents: "6 sides 0 103.1 106.1 108.1",
        condition: "",
        wanted: "unbound ...",
    },
];
