// Scripts of the form and not of it, at each limit and one past it.
use cq_inbox::{Config, Request};
use cq_script::{Halt, Script, ScriptError, StepWord, Why, read_script};
use std::alloc::{AllocError, Global};
use std::test::Fail;

/// The first bad line and why, or `None` where a script is read.
fn refusal(alloc: Global, script: &[u8]) -> Result<Option<(u64, Why)>, AllocError> {
    match read_script(alloc, script) {
        Ok(_) => Ok(None),
        Err(ScriptError::Bad { line, why }) => Ok(Some((line, why))),
        Err(ScriptError::Memory) => Err(AllocError),
    }
}

/// A text and then a piece so many times.
pub fn repeated(
    alloc: Global,
    head: &[u8],
    piece: &[u8],
    count: usize,
) -> Result<Vec<u8>, AllocError> {
    let mut text = head.to_vec(alloc)?;
    for _at in 0..count {
        text.extend_from_slice(piece)?;
    }
    Ok(text)
}

/// The clients, the entries of a segment, the threshold of bodies and the limit of files.
fn settings(config: &Config) -> (u32, u32, u32, u64) {
    (
        config.clients(),
        config.segment(),
        config.threshold(),
        config.limit(),
    )
}

/// Whether a request publishes this text to queue 0.
fn publishes(request: &Request, text: &[u8]) -> bool {
    match request {
        Request::Publish { queues, body } => {
            queues.numbers() == [0].as_slice() && body.bytes() == text
        }
        _ => false,
    }
}

/// Whether one client publishes "hello" to queue 0 and then takes a message of it.
fn are_asked(streams: &[Vec<Request>]) -> bool {
    let [stream] = streams else {
        return false;
    };
    match stream.as_slice() {
        [first, Request::Get { queue: 0 }] => publishes(first, b"hello"),
        _ => false,
    }
}

/// Whether these steps stand in the fourth line.
fn are_scheduled(script: &Script, steps: &[StepWord]) -> bool {
    script.scheduled == Some(4) && script.steps.words() == steps
}

#[test]
fn a_script_is_read(rt: HostRuntime) {
    let text = b"client 0\npublish 0 text hello\nget 0\nschedule c0 t0 w";
    let steps = [StepWord::Client(0), StepWord::Turn(0), StepWord::Write];
    match read_script(rt.alloc(), text) {
        Ok(script) => {
            assert!(rt; settings(&script.config) == (1, 4096, 4096, 16_777_216));
            assert!(rt; are_asked(script.streams.streams()));
            assert!(rt; are_scheduled(&script, &steps));
        }
        Err(_) => assert!(rt; false, "another answer"),
    }
}

/// Whether a script is read where no answer is given, and else refused with it.
fn is_answered(
    alloc: Global,
    script: &str,
    answer: Option<(u64, Why)>,
) -> Result<bool, AllocError> {
    Ok(refusal(alloc, script.as_bytes())? == answer)
}

/// Scripts that are read.
const READ: [&str; 5] = [
    "",
    "client 0",
    "client 0\nget 0\n",
    "client 0\nschedule w",
    "client 0\npublish 0 text !~",
];

/// Scripts that are refused, with the first bad line and why it is bad.
const REFUSED: [(&str, u64, Why); 25] = [
    ("\n", 1, Why::Word),
    ("client 0\n\n", 2, Why::Word),
    ("client  0", 1, Why::Word),
    (" client 0", 1, Why::Word),
    ("client 0 ", 1, Why::Word),
    ("client\t0", 1, Why::Word),
    ("client 0\r\nget 0\r\n", 1, Why::Word),
    ("client 0\npublish 0 text a\x7f", 2, Why::Word),
    ("# note", 1, Why::Word),
    ("client", 1, Why::Word),
    ("client 1", 1, Why::Client),
    ("client 0\nclient 0", 2, Why::Order),
    ("get 0\nclient 0", 1, Why::Client),
    ("publish 0 text a", 1, Why::Client),
    ("schedule w", 1, Why::Client),
    ("client 0\nget 1", 2, Why::Queue),
    ("client 0\nget 0 0", 2, Why::Word),
    ("client 0\npublish 0", 2, Why::Word),
    ("client 0\npublish 1 text a", 2, Why::Queue),
    ("client 0\npublish 0 empty", 2, Why::Body),
    ("client 0\npublish 0 text a b", 2, Why::Body),
    ("client 0\nschedule", 2, Why::Word),
    ("client 0\nschedule w c1", 2, Why::Step),
    ("client 0\nschedule w\nschedule w", 3, Why::Order),
    ("client 0\nschedule w\nget 0", 3, Why::Order),
];

#[test]
fn scripts_of_the_form_are_read(rt: HostRuntime) -> Result<(), Fail> {
    let alloc = rt.alloc();
    for script in &READ {
        assert!(rt; is_answered(alloc, script, None)?, "at {script}");
    }
    Ok(())
}

#[test]
fn the_first_bad_line_is_told(rt: HostRuntime) -> Result<(), Fail> {
    let alloc = rt.alloc();
    for (script, line, why) in &REFUSED {
        assert!(rt;
            is_answered(alloc, script, Some((*line, *why)))?,
            "at {script}"
        );
    }
    Ok(())
}

/// The first step of a schedule of this word, or `None` where the word is refused as no step.
fn first_step(alloc: Global, word: &str) -> Result<Option<StepWord>, AllocError> {
    let script = repeated(alloc, b"client 0\nschedule ", word.as_bytes(), 1)?;
    match read_script(alloc, &script) {
        Ok(script) => Ok(script.steps.words().first().copied()),
        Err(
            ScriptError::Bad {
                line: 2,
                why: Why::Step,
            },
        ) => Ok(None),
        Err(_) => Err(AllocError),
    }
}

/// Whether a word is this step, or none where `None` is given.
fn is_step(alloc: Global, word: &str, step: Option<StepWord>) -> Result<bool, AllocError> {
    Ok(first_step(alloc, word)? == step)
}

/// Words of crashes, and the image of each.
const CRASHES: [(&str, u64); 2] = [("!0", 0), ("!18446744073709551615", u64::MAX)];

/// Words of stops, with the image, the calls before the stop, and the step.
const STOPS: [(&str, u64, u64, Halt); 3] = [
    ("!57/15:w", 57, 15, Halt::Write),
    ("!2/15:t0", 2, 15, Halt::Turn(0)),
    ("!0/18446744073709551615:w", 0, u64::MAX, Halt::Write),
];

/// Words of no step.
const OTHERS: [&str; 25] = [
    "!18446744073709551616",
    "!00",
    "!01",
    "!",
    "!+1",
    "!-1",
    "!1a",
    "!1/",
    "!1/2",
    "!1/2:",
    "!1/:w",
    "!/2:w",
    "!1:w",
    "!1:2/w",
    "!1/2:m",
    "!1/2:c0",
    "!1/2:w*2",
    "!0/18446744073709551616:w",
    "!2/015:w",
    "!02/15:w",
    "!2/15:t1",
    "!x/1:w",
    "!1/2:w/3",
    "!1/2/3:w",
    "!1/2:3:w",
];

#[test]
fn words_of_crashes_are_read(rt: HostRuntime) -> Result<(), Fail> {
    let alloc = rt.alloc();
    for (word, image) in &CRASHES {
        let crash = StepWord::Crash { image: *image };
        assert!(rt; is_step(alloc, word, Some(crash))?, "at {word}");
    }
    Ok(())
}

#[test]
fn words_of_stops_are_read(rt: HostRuntime) -> Result<(), Fail> {
    let alloc = rt.alloc();
    for (word, image, calls, step) in &STOPS {
        let stop = StepWord::Stop {
            image: *image,
            calls: *calls,
            step: *step,
        };
        assert!(rt; is_step(alloc, word, Some(stop))?, "at {word}");
    }
    Ok(())
}

#[test]
fn other_words_are_refused(rt: HostRuntime) -> Result<(), Fail> {
    let alloc = rt.alloc();
    for word in &OTHERS {
        assert!(rt; is_step(alloc, word, None)?, "at {word}");
    }
    Ok(())
}

/// The refusal of a schedule of a piece so many times, and of a word after it that is no step.
fn refusal_after(
    alloc: Global,
    piece: &[u8],
    count: usize,
) -> Result<Option<(u64, Why)>, AllocError> {
    let mut script = repeated(alloc, b"client 0\nschedule", piece, count)?;
    script.extend_from_slice(b" !01")?;
    refusal(alloc, &script)
}

#[test]
fn a_bad_word_is_told_before_the_totals(rt: HostRuntime) -> Result<(), Fail> {
    let alloc = rt.alloc();
    assert!(rt; refusal_after(alloc, b" !0", 1001)? == Some((2, Why::Step)));
    assert!(rt; refusal_after(alloc, b" w", 10_001)? == Some((2, Why::Step)));
    Ok(())
}

/// Scripts of a text and a piece so many times, at a limit and one past it; and the first bad line and why it is bad.
const LIMITS: [(&str, &str, usize, Option<(u64, Why)>); 17] = [
    ("client 0\npublish 0 text ", "a", 64, None),
    ("client 0\npublish 0 text ", "a", 65, Some((2, Why::Body))),
    ("client 0\n", "publish 0 text a\n", 4096, None),
    (
        "client 0\n",
        "publish 0 text a\n",
        4097,
        Some((4098, Why::Many)),
    ),
    ("client 0\n", "get 0\n", 64, None),
    ("client 0\n", "get 0\n", 65, Some((66, Why::Many))),
    ("client 0\nschedule", " w", 10_000, None),
    ("client 0\nschedule", " w", 10_001, Some((2, Why::Many))),
    ("client 0\nschedule", " !0", 1000, None),
    ("client 0\nschedule", " !0", 1001, Some((2, Why::Many))),
    ("client 0\nschedule", " !0/0:w", 1000, None),
    ("client 0\nschedule", " !0/0:w", 1001, Some((2, Why::Many))),
    ("client 0\nschedule w", " !0 !0/0:t0", 500, None),
    (
        "client 0\nschedule !0",
        " !0 !0/0:t0",
        500,
        Some((2, Why::Many)),
    ),
    ("", "\n", 1_048_576, Some((1, Why::Word))),
    ("", "\n", 1_048_577, Some((1_048_577, Why::Long))),
    ("client 0\n", "a", 1_048_568, Some((2, Why::Long))),
];

/// Whether a script of a text and then a piece so many times is answered so.
fn is_kept(
    alloc: Global,
    head: &str,
    piece: &str,
    count: usize,
    answer: Option<(u64, Why)>,
) -> Result<bool, AllocError> {
    let script = repeated(alloc, head.as_bytes(), piece.as_bytes(), count)?;
    Ok(refusal(alloc, &script)? == answer)
}

#[test]
fn each_limit_is_kept(rt: HostRuntime) -> Result<(), Fail> {
    let alloc = rt.alloc();
    for (head, piece, count, answer) in &LIMITS {
        assert!(rt;
            is_kept(alloc, head, piece, *count, *answer)?,
            "at {count} of {piece}"
        );
    }
    Ok(())
}
