// Texts and what is said of each, for every reader of the programs.
use phrases::read_call;
use std::alloc::Global;
use std::fmt::Display;
use std::process::Abort;
use std::test::Fail;
use text::command::read_command;
use text::decimal::read_decimal;
use text::frame::read_frame;
use text::hex::read_hex;
use words::types::Fault;

const HEX: [(&str, &str); 5] = [
    ("", "read"),
    ("0aFf", "read"),
    ("0af", "the hexadecimal digit at 2 stands alone"),
    ("0ag0", "no hexadecimal digit at 2"),
    ("0a0 ", "no hexadecimal digit at 3"),
];

const DECIMAL: [(&str, &str); 5] = [
    ("18446744073709551615", "read"),
    ("007", "read"),
    ("", "no number"),
    ("1-", "no decimal digit at 1 of the number"),
    ("18446744073709551616", "a number of more than 64 bits"),
];

const FRAME: [(&str, &str); 3] = [
    ("\0\0\0\x09abcdefghi", "read"),
    (
        "\0\0\0\x07abcdefg",
        "fewer than 12 bytes: a length and a number are wanted",
    ),
    ("\0\0\0\x09abcdefgh", "the length does not match"),
];

// Lines of replica 1 of 3.
const LINE: [(&str, &str); 7] = [
    ("ask 00", "read"),
    ("from 0 00", "read"),
    ("beat", "read"),
    (
        "beat ",
        "no such line: ask HEX, from J HEX or beat is wanted",
    ),
    ("from x 00", "no decimal digit at 0 of the number"),
    ("from 3 00", "there is no house 3"),
    ("from 1 00", "a letter comes from another house"),
];

// Of a call, only which part is wrong.
const CALL: [(&str, &str); 15] = [
    ("make /a \"\\x00\" numbered session 7", "read"),
    ("do { check /a version 1; drop / }", "read"),
    ("do { }", "read"),
    ("", "act"),
    ("lock /a", "act"),
    ("look a", "path"),
    ("look /a/", "name"),
    ("look //", "name"),
    ("look /\\q", "escape"),
    ("put /a 1", "value"),
    ("put /a \"1", "value"),
    ("put /a \"\\xg0\"", "escape"),
    ("drop /a version", "number"),
    ("end -1", "number"),
    ("do { drop /a drop /b }", "braces"),
];

// What is said of what was read: that it was, or what is wrong with it.
fn said_of<T: Drop, E: Display + Drop>(heap: Global, read: Result<T, E>) -> Result<String, Fail> {
    match read {
        Ok(_) => Ok(String::from_str(heap, "read")?),
        Err(fault) => Ok(format!(in heap; "{fault}")?),
    }
}

// Of a call's text, only which part is wrong.
fn said_of_call(heap: Global, text: &[u8]) -> Result<String, Fail> {
    match read_call(heap, text) {
        Err(Fault::Wrong(wrong)) => Ok(format!(in heap; "{wrong:?}")?.to_ascii_lowercase(heap)?),
        read => said_of(heap, read),
    }
}

// Each text of the table is said to be what is wanted of it.
fn each_says<R: Abort, F: Fn(&[u8]) -> Result<String, Fail>>(
    rt: &R,
    table: &[(&str, &str)],
    said: F,
) -> Result<(), Fail>
    requires { F.IsAlwaysCallable said }
{
    for (text, wanted) in table {
        let came = said(text.as_bytes())?;
        assert_eq!(rt; came.as_str(), *wanted, "{}", text);
    }
    Ok(())
}

#[test]
fn refusals(rt: HostRuntime) -> Result<(), Fail> {
    let heap = rt.alloc();
    each_says(&rt, &HEX, |text| said_of(heap, read_hex(heap, text)))?;
    each_says(&rt, &DECIMAL, |text| said_of(heap, read_decimal(text)))?;
    each_says(&rt, &FRAME, |text| said_of(heap, read_frame(text)))?;
    each_says(&rt, &LINE, |text| said_of(heap, read_command(text, 1, 3)))?;
    each_says(&rt, &CALL, |text| said_of_call(heap, text))
}
