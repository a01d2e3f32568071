// Scripts of the form and not of it: a row for each reason, and at each limit and one past it.
use crate::scripts::repeated;
use cq_grammar::{ScriptError, Why, read_script};
use std::alloc::{AllocError, Global};
use std::test::Fail;

/// The first bad line and why, or `None` where a script is read.
fn refusal(alloc: Global, script: &[u8]) -> Result<Option<(u64, Why)>, AllocError> {
    match read_script(alloc, script) {
        Ok(_) => Ok(None),
        Err(ScriptError::Bad { line, why }) => Ok(Some((line, why))),
        Err(ScriptError::Memory) => Err(AllocError),
    }
}

/// Whether a script is read where no answer is given, and else refused with it.
fn is_answered(
    alloc: Global,
    script: &str,
    answer: Option<(u64, Why)>,
) -> Result<bool, AllocError> {
    Ok(refusal(alloc, script.as_bytes())? == answer)
}

/// Scripts that are read.
const READ: [&str; 6] = [
    "\n\n\n",
    "# note\nclient 0\nget 0",
    "clients 64\nqueues 256\nsegment 16\nthreshold 65536\nfile 4096\nclient 63\nget 255",
    "client 0\npublish 0 text !~\npublish 0 empty\npublish 0 hex 0aFf\npublish 0 fill 4095 255",
    "queues 3\nclient 0\npublish 2,0,1 text a\nack 4294967295\nend\nschedule c0*2 t0 w m*3",
    "schedule !0 !1/2:m !3/4:t0\nclient 0\nget 0\nschedule w",
];

/// Scripts that are refused, with the first bad line and why it is bad.
const REFUSED: [(&str, u64, Why); 37] = [
    (" # note", 1, Why::Word),
    ("clients 99 ", 1, Why::Word),
    ("clients", 1, Why::Word),
    ("clients 65", 1, Why::Number),
    ("clients 0", 1, Why::Number),
    ("queues 257", 1, Why::Number),
    ("segment 15", 1, Why::Number),
    ("segment 4097", 1, Why::Number),
    ("threshold 65537", 1, Why::Number),
    ("file 16777217", 1, Why::Number),
    ("file 4095", 1, Why::Number),
    ("clients 2\nqueues 1\nclients 2", 3, Why::Order),
    ("client 0\nqueues x", 2, Why::Order),
    ("schedule w\nqueues 2", 2, Why::Order),
    ("client 1", 1, Why::Client),
    ("client 01", 1, Why::Number),
    ("get", 1, Why::Client),
    ("client 0\nget 1", 2, Why::Queue),
    ("client 0\nget 18446744073709551616", 2, Why::Number),
    ("client 0\nack 4294967296", 2, Why::Number),
    ("client 0\nend 0", 2, Why::Word),
    ("client 0\npublish 9,x empty", 2, Why::Number),
    ("client 0\npublish 0, empty", 2, Why::Number),
    ("client 0\npublish 0,0 nothing", 2, Why::Queue),
    ("client 0\npublish 0 nothing", 2, Why::Body),
    ("client 0\npublish 0 text a b", 2, Why::Body),
    ("client 0\npublish 0 hex 0", 2, Why::Body),
    ("client 0\npublish 0 fill 01 65", 2, Why::Body),
    ("client 0\npublish 0 fill 1 256", 2, Why::Body),
    ("client 0\npublish 0 fill 4096 65", 2, Why::Body),
    ("schedule", 1, Why::Word),
    ("schedule c1*0", 1, Why::Step),
    ("schedule c1 x", 1, Why::Client),
    ("schedule x c1", 1, Why::Step),
    ("schedule w*1000001", 1, Why::Step),
    ("schedule !1/2:w*2", 1, Why::Step),
    ("schedule !1*2", 1, Why::Step),
];

#[test]
fn scripts_of_the_form_are_read(rt: HostRuntime) -> Result<(), Fail> {
    let alloc = rt.alloc();
    for script in &READ {
        assert!(rt; is_answered(alloc, script, None)?, "at {script}");
    }
    Ok(())
}

#[test]
fn the_first_bad_line_is_told_and_why(rt: HostRuntime) -> Result<(), Fail> {
    let alloc = rt.alloc();
    for (script, line, why) in &REFUSED {
        assert!(rt;
            is_answered(alloc, script, Some((*line, *why)))?,
            "at {script}"
        );
    }
    Ok(())
}

/// Scripts of a text and a piece so many times, at a limit and one past it; and the first bad line and why it is bad.
const LIMITS: [(&str, &str, usize, Option<(u64, Why)>); 4] = [
    ("client 0\npublish 0 text ", "a", 4095, None),
    ("client 0\npublish 0 text ", "a", 4096, Some((2, Why::Body))),
    ("schedule", " !0", 1000, None),
    ("schedule", " !0", 1001, Some((1, Why::Many))),
];

/// Whether a script of a text and then a piece so many times is answered so.
fn is_kept(
    alloc: Global,
    head: &str,
    piece: &str,
    count: usize,
    answer: Option<(u64, Why)>,
) -> Result<bool, AllocError> {
    let script = repeated(alloc, head.as_bytes(), piece.as_bytes(), count)?;
    Ok(refusal(alloc, &script)? == answer)
}

#[test]
fn each_limit_is_kept(rt: HostRuntime) -> Result<(), Fail> {
    let alloc = rt.alloc();
    for (head, piece, count, answer) in &LIMITS {
        assert!(rt;
            is_kept(alloc, head, piece, *count, *answer)?,
            "at {count} of {piece}"
        );
    }
    Ok(())
}
