//! The order of two lines (XCU sort), as GNU sort answers but for what is our own.
use super::rows::has_order;
use std::test::Fail;

/// Without -k the line is the key; all bytes.
static WHOLE_LINES: &str = r"sort|a|b|Less
sort|b|a|Greater
sort|a|a|Equal
sort|\e|a|Less
sort|\e|\e|Equal
sort|a|ab|Less
sort|B|a|Less
sort|a|\xff|Less
sort|10|9|Less
sort| b|a|Less
sort|a b|a\tb|Greater
sort|\x00|\e|Greater
sort -r|a|b|Greater
sort -r|b|a|Less
sort -r|\e|a|Greater
sort -u|a|a|Equal
sort -u|a|b|Less
sort -ru|a|b|Greater";

#[test]
fn without_a_key_lines_compare_by_all_bytes(rt: HostRuntime) -> Result<(), Fail> {
    for row in WHOLE_LINES.lines() {
        assert_eq!(rt; has_order(rt.alloc(), row)?, true, "{row}");
    }
    Ok(())
}

/// Without -k, -b skips nothing.
static WHOLE_LINES_WITH_B: &str = "sort -b| b|a|Less
sort -b| a| b|Less
sort -bu| a|a|Less";

#[test]
fn without_a_key_b_skips_nothing(rt: HostRuntime) -> Result<(), Fail> {
    for row in WHOLE_LINES_WITH_B.lines() {
        assert_eq!(rt; has_order(rt.alloc(), row)?, true, "{row}");
    }
    Ok(())
}

/// F folds to upper case; equal lines by all bytes, reversed by -r.
static FOLDED: &str = r"sort -f|a|B|Less
sort -f|b|A|Greater
sort -f|a|A|Greater
sort -f|A|a|Less
sort -fu|a|A|Equal
sort -fr|a|A|Less
sort -fr|a|B|Greater
sort -f|a|_|Less
sort -f|[|a|Greater
sort -f|\xe9|\xc9|Greater";

#[test]
fn f_folds_to_upper_case(rt: HostRuntime) -> Result<(), Fail> {
    for row in FOLDED.lines() {
        assert_eq!(rt; has_order(rt.alloc(), row)?, true, "{row}");
    }
    Ok(())
}

/// N reads blanks, an optional -, digits, an optional point and digits; nothing read is zero.
static NUMBERS: &str = r"sort -n|9|10|Less
sort -n|010|9|Greater
sort -n|-1|1|Less
sort -n|-2|-1|Less
sort -n|1.5|1.25|Greater
sort -n|1.50|1.5|Greater
sort -n|.5|0.25|Greater
sort -n|1.|1|Greater
sort -n|-.5|0|Less
sort -n|-|0|Less
sort -n|-0|0|Less
sort -nu|-0|0|Equal
sort -nu|-|0|Equal
sort -nu|.|x|Equal
sort -n|x|1|Less
sort -n|x|-1|Greater
sort -n|x|y|Less
sort -n|\e|0|Less
sort -n| 1|2|Less
sort -n|\t 3|2|Greater
sort -nu|1| 1|Equal
sort -nu|1x|1y|Equal
sort -nu|1e3|1|Equal
sort -nu|+1|0|Equal
sort -nu|--1|0|Equal
sort -nu|- 1|0|Equal
sort -nu|1,000|1|Equal
sort -nu|0x10|0|Equal
sort -n|99999999999999999999999|100000000000000000000000|Less
sort -n|0.00000000000000000000001|0.0000000000000000000001|Less
sort -n|18446744073709551616|18446744073709551615.9|Greater
sort -nr|9|10|Greater
sort -nr|1 a|1 b|Greater
sort -n|1 b|1 a|Greater
sort -nf|a|B|Greater
sort -nfu|1a|1B|Equal
sort -nu|\x0b1|0|Equal";

#[test]
fn n_compares_numbers(rt: HostRuntime) -> Result<(), Fail> {
    for row in NUMBERS.lines() {
        assert_eq!(rt; has_order(rt.alloc(), row)?, true, "{row}");
    }
    Ok(())
}

/// Without -t a field is blanks then non-blanks.
static FIELDS_BY_BLANKS: &str = r"sort -k 2|b 1|a 2|Less
sort -k 2,2|a 1|b 1|Less
sort -uk 2,2|a 1|b 1|Equal
sort -uk 2,2|a 1|b  1|Greater
sort -k 2,2|a  2|b 1|Less
sort -uk 2,2|a 1 x|b 1 y|Equal
sort -uk 2|a 1 x|b 1 y|Less
sort -uk 1,1| a b|a c|Less
sort -uk 1,1|a b|a c|Equal
sort -uk 3|a b|c d|Equal
sort -uk 3|a b|c d e|Less
sort -uk 2,2|a\tb|x b|Less
sort -uk 1,2|a b c|a b d|Equal
sort -k 2,3|x a b|y a c|Less";

#[test]
fn fields_begin_at_blanks(rt: HostRuntime) -> Result<(), Fail> {
    for row in FIELDS_BY_BLANKS.lines() {
        assert_eq!(rt; has_order(rt.alloc(), row)?, true, "{row}");
    }
    Ok(())
}

/// With -t fields stand between bytes c.
static FIELDS_BY_A_BYTE: &str = r"sort -t : -uk 2,2|a:b:c|x:b:y|Equal
sort -t : -k 2|a:2|b:1|Greater
sort -t : -uk 2,2|a::c|b|Equal
sort -t : -uk 1,1|:b|\e|Equal
sort -t : -k 2,2|x:|x: a|Less
sort -t : -uk 1,2|a:b:c|a:b:d|Equal
sort -t \x20 -k 2,2|a  b|a b|Less
sort -t \x20 -k 3|a  b|a b c|Less
sort -t : -k 1|a:b|a;b|Less
sort -t : -k 2n|a:10|b:9|Greater
sort -t x -k 2|axb|bxa|Greater";

#[test]
fn fields_stand_between_separators(rt: HostRuntime) -> Result<(), Fail> {
    for row in FIELDS_BY_A_BYTE.lines() {
        assert_eq!(rt; has_order(rt.alloc(), row)?, true, "{row}");
    }
    Ok(())
}

/// Byte C of the first and of the end field.
static BYTES_OF_FIELDS: &str = "sort -uk 1.2|xab|yab|Equal
sort -uk 1.2,1.2|xab|yac|Equal
sort -uk 1.2,1.3|xabc|yabd|Equal
sort -uk 1,1.2|abx|aby|Equal
sort -uk 2.2|a b1|c b1|Equal
sort -uk 2.2,2.2|a bx|c by|Equal
sort -uk 2.2b,2.2b|a  xb|c yb|Equal
sort -uk 1.1,1.0|ab c|ab d|Equal
sort -uk 1,1.0|ab c|ab d|Equal
sort -t : -uk 2.2,2.2|a:xb:c|d:yb:e|Equal
sort -t : -uk 2.1,2.1|a:xb|d:xc|Equal
sort -k 1.3|ab|abc|Less
sort -uk 1.9|abc|d|Equal";

#[test]
fn keys_count_bytes_of_their_fields(rt: HostRuntime) -> Result<(), Fail> {
    for row in BYTES_OF_FIELDS.lines() {
        assert_eq!(rt; has_order(rt.alloc(), row)?, true, "{row}");
    }
    Ok(())
}

/// Byte C of a shorter field is counted on along the line.
static BYTES_PAST_FIELDS: &str = "sort -uk 1.4,1.4|ab 9 z|cd 9 y|Equal
sort -uk 1.4,1.4|ab 9 z|cd 8 y|Greater
sort -uk 1.3,1.3|a b|c b|Equal
sort -t : -uk 1.3,1.3|a:b:c|x:b:d|Equal
sort -t : -uk 2.3|a:b:c|d:e:c|Equal
sort -uk 2.9,2.9|a b c|d e f|Equal
sort -uk 1,1.4|ab 9 z|ab 9 y|Equal
sort -uk 1,1.4|ab 9 z|ab 8 z|Greater";

#[test]
fn bytes_are_counted_on_along_the_line(rt: HostRuntime) -> Result<(), Fail> {
    for row in BYTES_PAST_FIELDS.lines() {
        assert_eq!(rt; has_order(rt.alloc(), row)?, true, "{row}");
    }
    Ok(())
}

/// A key whose end stands before its beginning, or whose first field isn't there, is empty.
static EMPTY_KEYS: &str = "sort -uk 2,1|a b|c d|Equal
sort -uk 1.3,1.2|abcd|xyz|Equal
sort -uk 2.2,2.1|a bc|d ef|Equal
sort -k 2,1|b 1|a 2|Greater
sort -uk 3,3|a b|c|Equal
sort -uk 3,3|a b|c d e|Less";

#[test]
fn keys_that_are_not_there_are_empty(rt: HostRuntime) -> Result<(), Fail> {
    for row in EMPTY_KEYS.lines() {
        assert_eq!(rt; has_order(rt.alloc(), row)?, true, "{row}");
    }
    Ok(())
}

/// An end field that isn't there is the line's end; blanks at a line's end are a last field.
static ENDS_PAST_THE_LINE: &str = r"sort -uk 1,9|a b|a b|Equal
sort -uk 1,9|a b|a c|Less
sort -uk 2,9|x a b|y a c|Less
sort -uk 2,2|a |b|Greater
sort -uk 2,2|a |b |Equal
sort -uk 2|a \t|b \t|Equal";

#[test]
fn ends_that_are_not_there_are_the_end_of_the_line(rt: HostRuntime) -> Result<(), Fail> {
    for row in ENDS_PAST_THE_LINE.lines() {
        assert_eq!(rt; has_order(rt.alloc(), row)?, true, "{row}");
    }
    Ok(())
}

/// B skips leading blanks of the field at that end of the key.
static BLANKS: &str = "sort -uk 2b,2|a 1|b   1|Equal
sort -b -uk 2,2|a 1|b   1|Equal
sort -uk 2,2b|a 1|b   1|Greater
sort -uk 1b|  a|a|Equal
sort -uk 1|  a|a|Less
sort -uk 2b,2.1b|a  xy|b xz|Equal
sort -uk 2b,2.2|a  xy|b   xz|Equal
sort -uk 2.1,2.2b|a  xyz|b  xyw|Equal
sort -t : -uk 2b,2|a:  x|b:x|Equal";

#[test]
fn b_skips_blanks_at_its_end_of_a_key(rt: HostRuntime) -> Result<(), Fail> {
    for row in BLANKS.lines() {
        assert_eq!(rt; has_order(rt.alloc(), row)?, true, "{row}");
    }
    Ok(())
}

/// Options on a key override all global ordering options for that key.
static LETTERS: &str = "sort -n -k 1,1|9|10|Less
sort -n -k 1,1f|9|10|Greater
sort -r -k 1,1n|9|10|Less
sort -n -k 1,1r|9|10|Less
sort -r -k 1,1|a|b|Greater
sort -k 1,1r|a|b|Greater
sort -f -uk 1,1b|a|A|Greater
sort -f -uk 1,1|a|A|Equal
sort -uk 1,1f|a|A|Equal
sort -uk 1f,1|a|A|Equal
sort -b -uk 2,2n|a 1|b   1|Equal
sort -b -uk 2,2f|a 1|b   1|Greater
sort -k 1,1nr|9|10|Greater
sort -k 1n,1r|9|10|Greater
sort -uk 2n|a 1x|b 01y|Equal";

#[test]
fn letters_on_a_key_override_the_global_ones(rt: HostRuntime) -> Result<(), Fail> {
    for row in LETTERS.lines() {
        assert_eq!(rt; has_order(rt.alloc(), row)?, true, "{row}");
    }
    Ok(())
}

/// Several keys in turn, then all bytes, reversed by -r.
static LAST_RESORT: &str = "sort -k 1,1 -k 2,2n|a 10|a 9|Greater
sort -k 2,2 -k 1,1r|a 1|b 1|Greater
sort -uk 1,1 -k 3,3|a x 1|a y 1|Equal
sort -k 1,1|a 2|a 1|Greater
sort -r -k 1,1|a 2|a 1|Less
sort -k 1,1r|a 2|a 1|Greater
sort -k 1,1n -k 2r|1 a|01 b|Greater
sort -nk 2 -k 1|5 1|10 1|Less
sort -rk 2,2n|a 1|b 1|Greater
sort -u -k 1,1 -k 2,2r|a 1|a 2|Greater";

#[test]
fn lines_that_no_key_tells_apart_compare_by_all_bytes(rt: HostRuntime) -> Result<(), Fail> {
    for row in LAST_RESORT.lines() {
        assert_eq!(rt; has_order(rt.alloc(), row)?, true, "{row}");
    }
    Ok(())
}

/// Mixed cases, all rules of this file together.
static MIXED: &str = "sort -b -k 1,1| . B|1 1b1a :|Less
sort -f -t : -k 2,2.1|-:b. b|1a 2b|Greater
sort -u -n -k 3|-1:a1|-:B ..Bb|Equal
sort -r -t : -k 2r -k 2|-1: |a B B ab|Less
sort -k 1,2.1b|-:.:aBa|22B22B12|Less
sort -f -k 2,2|:a-2BB-|a::: :a|Less
sort -k 1.2,1.3| -: 2Bb|B .|Greater
sort -r -t :|:B:Bb1|B-|Greater
sort -f|a  a-1|B22:2:|Less
sort -t : -k 1,2.1b -k 2,2.1|-|21ab1|Less
sort -n -t : -k 2 -k 2|.1: :-|ba|Less
sort -n -f| :. |2.1 a:.|Less
sort -f -t : -k 1f -k 1,2.1b|a-a1bb|. a|Greater
sort -f -k 2n -k 1|.:B12B |-1 a|Greater
sort -u -t : -k 2n -k 1,2.1b|-ab..|aB1b|Less
sort -r -t : -k 1|:.b a  b|  .1|Less
sort -n -f -t : -k 2,2.1| ba..|-B|Less
sort -b -b -k 1.2| aa |  a|Greater
sort -n -f -t : -k 1,1|B-B |a-aB|Less
sort -f -t : -k 1.2|: - :|11 b  |Less
sort -r -n| B.b |b 1b B|Greater
sort -n -k 1,2.1b| 1b1-|2|Less
sort -r -t :|a22a2-|  :b.2|Less
sort -u -k 2,2.1|ba| 12 . :|Less
sort -u -k 2n|a a|2b :|Equal
sort -b -r -k 3|.a1|1b22|Greater
sort -b -t : -k 1.2|-baa-.|B.a|Greater
sort -k 3 -k 2.2,2.2|-B|22b |Less
sort -u -k 1 -k 2.2,2.2|b   .- |2|Greater
sort -t : -k 2,2|.|-B. .|Greater
sort -t :|a| 11 :|Greater
sort -n -k 2,2.1|ab|aB1.: b|Greater
sort -t : -k 1f -k 2| a:2.a1|.a |Less
sort -k 1.2,1.3|bB |-:baB:  |Greater
sort -u -t : -k 2b,2 -k 2.2,2.2| b. |2  b2:2B|Less
sort -b -n -t : -k 2b,2|12ba1aaa|b-2a.2: |Less
sort -k 3| | b:|Less
sort -k 3|B a2|2B b.|Greater
sort -f -t :|2-B- |-2.-a|Greater
sort -b -t : -k 2.2,2.2 -k 2.2,2.2| 2- 2|B. :. : |Less
sort -k 2,2.1|1:a bB|B|Greater
sort -b -k 2,2|a |.- b|Less
sort -b -f -k 1,2.1b|2-aa2|ab .-::|Less
sort -r -t : -k 2n|211 a.a|a:|Greater
sort -b -u -k 1.2|aa.|aa|Greater
sort -r| a-| 2b:B2-|Less
sort -n -f -k 1|::-|b .2- |Less
sort|2a| aaab-2a|Greater
sort -t : -k 1.2 -k 1.2|2:a|.-a 2B.|Greater
sort -u|Bb:a|B|Greater
sort -r -t : -k 1.2|a|a B-|Greater
sort -t : -k 1.2 -k 2b,2| .-|1 --1a|Greater
sort -r -u|a b1-| a1Bb|Less
sort -k 2| a12B1b1|2b.aaa.|Less
sort -f|1a22a::.|1:B.a|Greater
sort -r|1| b|Less
sort -r -k 2n|1- : |bB  b|Greater
sort -u -n -k 1,2.1b|.2| 2|Greater
sort -f -k 2r|112a| 2b.1B|Greater
sort -r -t : -k 2n|-.|:|Greater
sort -r -t : -k 1f -k 3|-.Ba|a2aa|Less
sort -k 1,1 -k 2,2.1|.- a2-| -|Greater
sort -b -t : -k 2b,2|Baa|a.b|Less
sort -b -t : -k 3|:B|112|Greater
sort -u -k 2r -k 2,2.1|-- -12B|  :aBa|Less
sort -f -n -k 1f -k 1.2|aB|Bb|Less
sort -r -t : -k 1,2.1b|  -b1a2|-|Less
sort -f| :1 b  |  1B. :-|Greater
sort -r -t :|: 21b.|a|Greater
sort|Ba:2|a|Less
sort -k 3|b21 a|aB1a-|Greater
sort|B:b-- 1|:a12a1 |Greater
sort -u|::a:1a|-2..b-|Greater
sort -b -t : -k 2b,2 -k 1.2,1.3|- a  2|1 :1a2bB|Less
sort -b -k 2|b:bab|B 2ab.11|Less
sort -n|2|abB1|Greater
sort -k 2.2,2.2| -aB-a1 |a 1 :a-|Less
sort -u -u -k 1|b|21ab|Greater
sort -r -u -k 1 -k 1,1|a1 -1bb|2.aa :a|Less
sort -u -k 1|B...B B-|  B|Greater";

#[test]
fn rules_work_together(rt: HostRuntime) -> Result<(), Fail> {
    for row in MIXED.lines() {
        assert_eq!(rt; has_order(rt.alloc(), row)?, true, "{row}");
    }
    Ok(())
}
