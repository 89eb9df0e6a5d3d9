//! The values of texts, as `dash` answers where the rule isn't our own.

use sh_arith::{ArithFault, Env, arith};
use std::alloc::Global;
use std::process::Abort;
use std::test::Fail;

/// Rows of operands: a text, its value or fault, the variables before and those after, each `name=text` and parted by `;`.
///
/// Between the columns stands ` => `, and empty ones at the end are left out. A line that begins with `//` is no row.
static OPERANDS: &str = "// Constants, decimal, octal and hexadecimal.
0 => 0
1 => 1
42 => 42
007 => 7
010 => 8
0777 => 511
00 => 0
08 => Syntax
09 => Syntax
018 => Syntax
0x0 => 0
0x1f => 31
0xFF => 255
0xAbC => 2748
0x => Syntax
0xg => Syntax
0x1g => Syntax
1x => Syntax
12a => Syntax
1_ => Syntax
0a => Syntax
0b1 => Syntax
1.5 => Syntax
9223372036854775807 => 9223372036854775807
9223372036854775808 => Overflow
99999999999999999999 => Overflow
0x7fffffffffffffff => 9223372036854775807
0x8000000000000000 => Overflow
0777777777777777777777 => 9223372036854775807
01000000000000000000000 => Overflow
// 0X is 0x.
0X1f => 31
// An empty text is 0 (own); white space is space, tab and newline, a text of these alone is 0.
 => 0
 1  => 1
1 2 => Syntax
// Names; a value is a constant with optional sign, unset or empty is 0 (own).
x => 0
x => 5 => x=5 => x=5
x => 0 => x= => x=
x => -5 => x=-5 => x=-5
x => 5 => x=+5 => x=+5
x => 8 => x=010 => x=010
x => -8 => x=-010 => x=-010
x => 31 => x=0x1F => x=0x1F
x => 31 => x=0X1F => x=0X1F
x => -16 => x=-0x10 => x=-0x10
x => -16 => x=-0X10 => x=-0X10
x+y => 3 => x=1;y=2 => x=1;y=2
_ => 3 => _=3 => _=3
x1_Y => 7 => x1_Y=7 => x1_Y=7
xy => 0 => x=1;y=2 => x=1;y=2
x => 9223372036854775807 => x=9223372036854775807 => x=9223372036854775807
x => -9223372036854775807 => x=-9223372036854775807 => x=-9223372036854775807
x => Overflow => x=9223372036854775808 => x=9223372036854775808
x => Overflow => x=-9223372036854775809 => x=-9223372036854775809
x => Overflow => x=99999999999999999999999999 => x=99999999999999999999999999
// The least i64 as a name's value, with its sign; as a constant it is Overflow.
x => -9223372036854775808 => x=-9223372036854775808 => x=-9223372036854775808
-9223372036854775808 => Overflow
-9223372036854775807-1 => -9223372036854775808
-x => Overflow => x=-9223372036854775808 => x=-9223372036854775808
-x => Overflow => x=9223372036854775808 => x=9223372036854775808
// NotANumber.
x => NotANumber x => x=a => x=a
x => NotANumber x => x=y;y=3 => x=y;y=3
x => NotANumber x => x=1+1 => x=1+1
x => NotANumber x => x=08 => x=08
x => NotANumber x => x=1x => x=1x
x => NotANumber x => x=--1 => x=--1
x => NotANumber x => x=- => x=-
x => NotANumber x => x=+ => x=+
x => NotANumber x => x=0x => x=0x
x => NotANumber x => x= 5 => x= 5
x => NotANumber x => x=- 5 => x=- 5
x => NotANumber x => x=1.0 => x=1.0
x+y => NotANumber y => x=1;y=b => x=1;y=b
x+y => NotANumber x => x=a;y=b => x=a;y=b
y+x => NotANumber y => x=a;y=b => x=a;y=b
abc => NotANumber abc => abc=(1) => abc=(1)
// Parentheses.
(1) => 1
((1)) => 1
( ( 1 ) ) => 1
(1+2)*3 => 9
1+(2)*3 => 7
-(1) => -1
(x) => 4 => x=4 => x=4
() => Syntax
(1 => Syntax
1) => Syntax
(1)) => Syntax
((1) => Syntax
(1)(2) => Syntax
(1)2 => Syntax
2(1) => Syntax
)1( => Syntax";

/// The same of bytes that a line of text can't have, or shouldn't end in: a text, the variables before, its value or fault, and the
/// variables after.
static OTHER_OPERANDS: [(&str, &str, &str, &str); 12] = [
    (" \t\n ", "", "0", ""),
    ("\n1\n", "", "1", ""),
    ("\t1\t+\t2", "", "3", ""),
    ("1\r", "", "Syntax", ""),
    ("1\x0b", "", "Syntax", ""),
    ("1\x0c+2", "", "Syntax", ""),
    ("\0", "", "Syntax", ""),
    ("1\0", "", "Syntax", ""),
    ("x", "x=5 ", "NotANumber x", "x=5 "),
    ("x", "x=5\n", "NotANumber x", "x=5\n"),
    ("y=0x1f\n--1", "", "32", "y=32"),
    (" x1_<<=0x1f\n--&&&", "", "Syntax", ""),
];

/// The same of operators, `&&` and `||` among them.
static OPERATORS: &str = "// Unary + - ~ !.
+1 => 1
-1 => -1
~0 => -1
~5 => -6
!0 => 1
!1 => 0
!7 => 0
!-1 => 0
- 1 => -1
-+1 => -1
+-1 => -1
-~0 => 1
~-1 => 0
!!5 => 1
!~0 => 0
~!0 => -2
-!0 => -1
- -1 => 1
-(-1) => 1
-x => -3 => x=3 => x=3
-x => 3 => x=-3 => x=-3
+ => Syntax
- => Syntax
! => Syntax
~ => Syntax
1+ => Syntax
1- => Syntax
// ++ and -- are no tokens but two operators each.
++1 => 1
--1 => 1
++x => 3 => x=3 => x=3
--x => 3 => x=3 => x=3
- - x => 3 => x=3 => x=3
1--1 => 2
1++1 => 2
1---1 => 0
x++ => Syntax => x=3 => x=3
x-- => Syntax => x=3 => x=3
// * / % from the left; / goes towards zero, % has the dividend's sign.
2*3 => 6
7/2 => 3
-7/2 => -3
7/-2 => -3
-7/-2 => 3
0/5 => 0
7%3 => 1
-7%3 => -1
7%-3 => 1
-7%-3 => -1
7/2*2 => 6
7*2/2 => 7
2*7%4 => 2
100/10/2 => 5
100%7%3 => 2
6/4*1. => Syntax
*1 => Syntax
1* => Syntax
1**2 => Syntax
1//2 => Syntax
1/ /2 => Syntax
// / and % by zero.
1/0 => DivideByZero
1%0 => DivideByZero
0/0 => DivideByZero
1/(1-1) => DivideByZero
1/x => DivideByZero
x/x => DivideByZero => x=0 => x=0
1/0+y => DivideByZero => y=a => y=a
y+1/0 => NotANumber y => y=a => y=a
-9223372036854775807-1 % -1 => -9223372036854775807
(-9223372036854775807-1) % -1 => 0
(-9223372036854775807-1) / -1 => Overflow
x%-1 => 0 => x=-9223372036854775808 => x=-9223372036854775808
x/-1 => Overflow => x=-9223372036854775808 => x=-9223372036854775808
// + and - from the left.
1+2 => 3
5-3 => 2
3-5 => -2
1-2-3 => -4
10-2+3 => 11
1+2*3 => 7
2*3+1 => 7
1 +-2 => -1
1-+2 => -1
1+ +2 => 3
// << and >>.
1<<0 => 1
1<<4 => 16
1<<62 => 4611686018427387904
3>>1 => 1
-3>>1 => -2
-1>>63 => -1
8>>2<<1 => 4
1<<2<<3 => 32
1<<1+2 => 8
1+1<<2 => 8
1<<64 => Overflow
1<<-1 => Overflow
1>>64 => Overflow
1>>-1 => Overflow
1>>63 => 0
0<<63 => 0
1 < < 2 => Syntax
// << multiplies by a power of two, so a product outside i64 is Overflow.
1<<63 => Overflow
2<<62 => Overflow
-1<<63 => -9223372036854775808
-1<<62 => -4611686018427387904
-2<<63 => Overflow
3<<62 => Overflow
-3<<62 => Overflow
// < <= > >= give 0 or 1.
1<2 => 1
2<1 => 0
1<1 => 0
1<=1 => 1
2<=1 => 0
2>1 => 1
1>2 => 0
1>=1 => 1
1>=2 => 0
-1<1 => 1
3>2>1 => 0
1<2<3 => 1
1<2+3 => 1
1<<2<5 => 1
1< =2 => Syntax
// == and !=.
1==1 => 1
1==2 => 0
1!=2 => 1
1!=1 => 0
1==1==1 => 1
2==2==2 => 0
1<2==2>1 => 1
1==1<2 => 1
x==y => 1 => x=07;y=7 => x=07;y=7
1= =1 => Syntax
1!==1 => Syntax
// & ^ |.
6&3 => 2
6^3 => 5
6|3 => 7
-1&255 => 255
1|2&3 => 3
1^3&2 => 3
1|1^1 => 1
1|6^2&3 => 5
5&1==1 => 1
(5&1)==1 => 1
1 & & 1 => Syntax
// && and || give 0 or 1 and don't evaluate the unneeded side.
1&&2 => 1
1&&0 => 0
0&&1 => 0
0||0 => 0
0||2 => 1
1||0 => 1
2||1&&0 => 1
1&&0||1 => 1
0&&1||1 => 1
0||1&&0 => 0
0&&1/0 => 0
1||1/0 => 1
1&&1/0 => DivideByZero
0||1/0 => DivideByZero
0&&(x=1) => 0
1&&(x=1) => 1 =>  => x=1
1||(x=1) => 1
0||(x=1) => 1 =>  => x=1
0&&x => 0 => x=a => x=a
1||x => 1 => x=a => x=a
1|1&&0 => 0
1&&2|4 => 1
// A token is as long as it can be.
 x1_Y<<0x1f => 2147483648 => x1_Y=1 => x1_Y=1
2&&1 => 1
2&1 => 0
2&&3&4 => 0
1&&&1 => Syntax
-+~!x => 2
// Operators between the values of names.
x/y => -3 => x=-7;y=2 => x=-7;y=2
x%y => -1 => x=-7;y=3 => x=-7;y=3
x%y => 1 => x=7;y=-3 => x=7;y=-3
x/y => DivideByZero => x=1;y=0 => x=1;y=0
x%y => DivideByZero => x=1;y=0 => x=1;y=0
x/y => Overflow => x=-9223372036854775808;y=-1 => x=-9223372036854775808;y=-1
x%y => 0 => x=-9223372036854775808;y=-1 => x=-9223372036854775808;y=-1
x+y => Overflow => x=9223372036854775807;y=1 => x=9223372036854775807;y=1
x-y => Overflow => x=-9223372036854775808;y=1 => x=-9223372036854775808;y=1
x*y => Overflow => x=3037000500;y=3037000500 => x=3037000500;y=3037000500
x<<y => 4611686018427387904 => x=1;y=62 => x=1;y=62
x<<y => Overflow => x=1;y=63 => x=1;y=63
x<<y => -9223372036854775808 => x=-1;y=63 => x=-1;y=63
x<<y => 0 => x=0;y=63 => x=0;y=63
x<<y => Overflow => x=0;y=64 => x=0;y=64
x>>y => -2 => x=-3;y=1 => x=-3;y=1
x>>y => -1 => x=-1;y=63 => x=-1;y=63
x>>y => Overflow => x=1;y=-1 => x=1;y=-1
x&y => 255 => x=-1;y=255 => x=-1;y=255
x^y => 5 => x=6;y=3 => x=6;y=3";

/// The same of `?:` and `=`, and of what is evaluated or overflows.
static CHOICES: &str = "// Faults but Syntax and Deep come only where that part is evaluated.
1||99999999999999999999 => 1
0&&99999999999999999999 => 0
1?2:99999999999999999999 => 2
0||99999999999999999999 => Overflow
1||1<<64 => 1
1||(1 => Syntax
1||) => Syntax
0&&1+ => Syntax
// ?:.
1?2:3 => 2
0?2:3 => 3
0?1:0?2:3 => 3
1?2:3?4:5 => 2
1?0?2:3:4 => 3
1?2:1/0 => 2
0?1/0:3 => 3
1?(x=2):(y=3) => 2 =>  => x=2
0?(x=2):(y=3) => 3 =>  => y=3
1?x=2:3 => 2 =>  => x=2
0?1:x=2 => Syntax
1||0?2:3 => 2
0?2:3+1 => 4
1==1?2:3 => 2
x?x:9 => 5 => x=5 => x=5
x?x:9 => 9
1?2 => Syntax
1?2: => Syntax
1?:2 => Syntax
?1:2 => Syntax
1:2 => Syntax
1 ? 2 : 3 : 4 => Syntax
// = to a name.
x=1 => 1 =>  => x=1
x=1+1 => 2 =>  => x=2
x=1 => 1 => x=5 => x=1
x = 3 => 3 =>  => x=3
x=y=2 => 2 =>  => x=2;y=2
x=y=z=4 => 4 =>  => x=4;y=4;z=4
x=(y=2)+1 => 3 =>  => x=3;y=2
(x=1)+(x=2) => 3 =>  => x=2
(x=5)+x => 10 =>  => x=5
x+(x=5) => 6 => x=1 => x=5
x=x+1 => 2 => x=1 => x=2
x=1?2:3 => 2 =>  => x=2
x=1||0 => 1 =>  => x=1
x=-7%3 => -1 =>  => x=-1
x=0x10 => 16 =>  => x=16
x=010 => 8 =>  => x=8
x= => Syntax => x=1 => x=1
=1 => Syntax
1=1 => Syntax
(x)=1 => Syntax
x+1=2 => Syntax
1+x=2 => Syntax
x=1=2 => Syntax
!x=1 => Syntax
x==1=2 => Syntax
x=y => NotANumber y => y=a => y=a
x=1/0 => DivideByZero => x=5 => x=5
_a1=2 => 2 =>  => _a1=2
x=99999999999999999999 => Overflow => x=1 => x=1
// Overflow, a result outside i64.
9223372036854775807+1 => Overflow
9223372036854775806+1 => 9223372036854775807
-9223372036854775807-2 => Overflow
0-9223372036854775807-1 => -9223372036854775808
4611686018427387904*2 => Overflow
4611686018427387903*2 => 9223372036854775806
-4611686018427387904*2 => -9223372036854775808
3037000500*3037000500 => Overflow
9223372036854775807*9223372036854775807 => Overflow
x+1 => Overflow => x=9223372036854775807 => x=9223372036854775807
-x => -9223372036854775807 => x=9223372036854775807 => x=9223372036854775807
x*-1 => Overflow => x=-9223372036854775808 => x=-9223372036854775808
~9223372036854775807 => -9223372036854775808";

/// The same of faults before and after assignments, and before anything is evaluated.
static FAULTS: &str = r#"// After a fault the assignments evaluated before it stand.
(x=1)+1/0 => DivideByZero =>  => x=1
(x=1)+(y=a) => NotANumber a => a=b => a=b;x=1
1/0+(x=1) => DivideByZero
(x=2)+(1<<64) => Overflow => x=1 => x=2
(x=2)+9223372036854775807 => Overflow => x=1 => x=2
x=1/0+(y=3) => DivideByZero
(x=1)&&(y=2)&&z => NotANumber z => z=q => x=1;y=2;z=q
// Syntax is told before any evaluation.
(x=1)+ => Syntax
(x=1)+1 2 => Syntax
1/0 1 => Syntax
x= => Syntax => x=a => x=a
x= => Syntax
x++ => Syntax
(1?2):3 => Syntax
a; => Syntax
a b => Syntax
a => NotANumber a => a=b c => a=b c
1;2 => Syntax
1,2 => Syntax
x=1,2 => Syntax
x+=1 => Syntax => x=1 => x=1
x*=2 => Syntax => x=1 => x=1
x<<=1 => Syntax => x=1 => x=1
a[1] => Syntax
$x => Syntax
${x} => Syntax
$((1)) => Syntax
"1" => Syntax
'1' => Syntax
\1 => Syntax
1\ => Syntax
# => Syntax
10#5 => Syntax
@ => Syntax
1 ! 2 => Syntax
1 ~ 2 => Syntax
1 (2) => Syntax
x y => Syntax => x=1;y=2 => x=1;y=2
` => Syntax
{1} => Syntax
1 ? 2 : : 3 => Syntax"#;

/// The names that the cases speak of.
static NAMES: [&str; 10] = ["x", "y", "z", "a", "b", "_", "_a1", "x1_Y", "xy", "abc"];

/// The variables that a text such as `x=1;y=` tells.
fn variables(alloc: Global, text: &str) -> Result<Env, Fail> {
    let mut env = Env::new(alloc);
    for pair in text.split(';') {
        if let Some((name, value)) = pair.split_once('=') {
            env.set(alloc, name.as_bytes(), value.as_bytes())?;
        }
    }
    Ok(env)
}

fn is_told(told: &Result<i64, ArithFault>, wanted: &str) -> bool {
    match told {
        Ok(value) => wanted.parse::<i64>().is_ok_and(|wanted| wanted == *value),
        Err(ArithFault::Syntax) => wanted == "Syntax",
        Err(ArithFault::DivideByZero) => wanted == "DivideByZero",
        Err(ArithFault::Overflow) => wanted == "Overflow",
        Err(ArithFault::NotANumber(name)) => wanted
            .strip_prefix("NotANumber ")
            .is_some_and(|wanted| wanted.as_bytes() == name.as_slice()),
        Err(ArithFault::Deep) => wanted == "Deep",
        Err(ArithFault::Memory) => false,
    }
}

fn has_same(env: &Env, wanted: &Env) -> bool {
    NAMES.iter().all(|name| env.get(name.as_bytes()) == wanted.get(name.as_bytes()))
}

/// Whether the text has this value or fault over these variables, and leaves those.
fn has_outcome(
    alloc: Global,
    text: &str,
    before: &str,
    wanted: &str,
    after: &str,
) -> Result<bool, Fail> {
    let mut env = variables(alloc, before)?;
    let told = arith(alloc, text.as_bytes(), &mut env);
    Ok(is_told(&told, wanted) && has_same(&env, &variables(alloc, after)?))
}

/// Whether the row's text has the outcome that stands behind it; a comment has.
fn holds(alloc: Global, row: &str) -> Result<bool, Fail> {
    if row.starts_with("//") {
        return Ok(true);
    }
    let mut columns = row.split(" => ");
    let text = columns.next().unwrap_or("");
    let wanted = columns.next().unwrap_or("");
    let before = columns.next().unwrap_or("");
    let after = columns.next().unwrap_or("");
    has_outcome(alloc, text, before, wanted, after)
}

/// Expects that each row holds.
fn expect_rows(rt: &impl Abort, alloc: Global, rows: &str) -> Result<(), Fail> {
    for row in rows.lines() {
        assert!(rt; holds(alloc, row)?, "{row}");
    }
    Ok(())
}

#[test]
fn operands_have_values_or_faults(rt: HostRuntime) -> Result<(), Fail> {
    expect_rows(&rt, rt.alloc(), OPERANDS)
}

#[test]
fn operands_of_any_bytes_have_values_or_faults(rt: HostRuntime) -> Result<(), Fail> {
    for &(text, before, wanted, after) in OTHER_OPERANDS.iter() {
        let holds = has_outcome(rt.alloc(), text, before, wanted, after)?;
        assert!(rt; holds, "{text}");
    }
    Ok(())
}

#[test]
fn operators_have_values_or_faults(rt: HostRuntime) -> Result<(), Fail> {
    expect_rows(&rt, rt.alloc(), OPERATORS)
}

#[test]
fn choices_and_assignments_have_values_or_faults(rt: HostRuntime) -> Result<(), Fail> {
    expect_rows(&rt, rt.alloc(), CHOICES)
}

#[test]
fn faults_leave_the_assignments_before_them(rt: HostRuntime) -> Result<(), Fail> {
    expect_rows(&rt, rt.alloc(), FAULTS)
}

/// A row a line: a text as it begins, what is then written so many times, what stands inside, what is written as often after it, how the
/// text ends, and its value or its fault, with `;` between the columns.
static NESTED: &str = ";(;64;1;);;1
;(;65;1;);;Deep
;-;64;1;;;1
;-;65;1;;;Deep
;!(;32;1;);;1
!;!(;32;1;);;Deep
;1?2:;64;3;;;2
;1?2:;65;3;;;Deep
;1?;64;2;:3;;2
;1?;65;2;:3;;Deep
;x=;64;1;;;1
;x=;65;1;;;Deep
;1+;1000;1;;;1001
;(1)+;1000;1;;;1001
;-1;1000;;;;-1000
;1&&;1000;1;;;1
;(;64;1;);?2:3;Deep
;(;63;1;);?2:3;2
1?;(;64;1;);:3;Deep
0?2:;(;63;1;);;1
0?2:;(;64;1;);;Deep
1/0+;(;65;1;);;Deep
1||;(;65;1;);;Deep
(x=1)+;-;65;1;;;Deep
;(;65;1;););Syntax
;(;65;1;); 2;Syntax
;(;65;99999999999999999999;);;Deep
;(;100000;1;);;Deep
;(;100000;1;;;Syntax";

/// The text of a row of nested parts.
fn nested_text(alloc: Global, row: &str) -> Result<String, Fail> {
    let mut columns = row.split(';');
    let mut text = String::from_str(alloc, columns.next().unwrap_or(""))?;
    let before = columns.next().unwrap_or("");
    let times = columns.next().unwrap_or("").parse::<usize>().unwrap_or(0);
    text.push_str(before.repeat(alloc, times)?.as_str())?;
    text.push_str(columns.next().unwrap_or(""))?;
    text.push_str(columns.next().unwrap_or("").repeat(alloc, times)?.as_str())?;
    text.push_str(columns.next().unwrap_or(""))?;
    Ok(text)
}

/// Whether the text of a row of nested parts has the value or the fault that stands last.
fn nests_so(alloc: Global, row: &str) -> Result<bool, Fail> {
    let text = nested_text(alloc, row)?;
    let mut env = Env::new(alloc);
    let told = arith(alloc, text.as_bytes(), &mut env);
    Ok(is_told(&told, row.rsplit(';').next().unwrap_or("")))
}

#[test]
fn levels_are_counted(rt: HostRuntime) -> Result<(), Fail> {
    for row in NESTED.lines() {
        assert!(rt; nests_so(rt.alloc(), row)?, "{row}");
    }
    Ok(())
}

/// Whether this is told of a text where `x` is a byte that is no character.
fn told_of_a_byte(alloc: Global, text: &[u8], wanted: &str) -> Result<bool, Fail> {
    let mut env = Env::new(alloc);
    env.set(alloc, b"x", b"\xff")?;
    Ok(is_told(&arith(alloc, text, &mut env), wanted))
}

#[test]
fn a_byte_that_is_no_character_is_no_number(rt: HostRuntime) -> Result<(), Fail> {
    assert!(rt; told_of_a_byte(rt.alloc(), b"\xff", "Syntax")?);
    assert!(rt; told_of_a_byte(rt.alloc(), b"x", "NotANumber x")?);
    Ok(())
}

/// A row a line: a text, which has the variables that the ones before have left, and its value or fault, with `;` between them.
static LATER: &str = "7 / 2 * 2;6
x = 3;3
x;3
1 / 0;DivideByZero";

#[test]
fn an_assignment_stands_for_the_next_text(rt: HostRuntime) -> Result<(), Fail> {
    let mut env = Env::new(rt.alloc());
    for row in LATER.lines() {
        let (text, wanted) = row.split_once(';').unwrap_or((row, ""));
        let told = arith(rt.alloc(), text.as_bytes(), &mut env);
        assert!(rt; is_told(&told, wanted), "{row}");
    }
    Ok(())
}
