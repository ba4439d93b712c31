//! Replay scripts: one that is read. Those that are refused are in `test_program`.

use crate::compare::{same, same_at};
use mb_claim::Shape;
use mb_deciding::{Act, Reg};
use mb_quorum::TableName;
use mb_script::{
    Fault, LineWords, ascii_text, has_empty_word, numbers, parse, push_act, shape_of_word,
    split_line, table_named,
};
use mb_world::Event;
use std::alloc::Allocator;
use std::process::Abort;

#[test]
fn a_script_is_read(rt: HostRuntime) {
    let text = "setup 2 3 4 5 unary\noffer 1 18446744073709551615\npush 1\nfinish 0\nstep 2 1 7";
    let script = parse(rt.alloc(), text.as_bytes()).expect(&rt, "a script that is refused");
    let setup = &script.setup;
    let sizes = (setup.producers(), setup.consumers(), setup.cells());
    // Three consumers and five pairs: a conciliator has at most 6 accesses, a ratifier 1 + 2 + 2.
    same(&rt, &(sizes, setup.layout().max_steps()), &((2, 3, 4), 55));
    let events = [
        Event::Offer {
            lane: 1,
            item: u64::MAX,
        },
        Event::Push { lane: 1 },
        Event::Finish { lane: 0 },
        Event::Step {
            consumer: 2,
            lane: 1,
            word: 7,
        },
    ];
    assert!(rt; script.events.as_slice() == events.as_slice());
}

// Lines and words, and what some words name.
#[test]
fn lines_and_words(rt: HostRuntime) {
    let both = Shape {
        fast: true,
        last: true,
    };
    let lines = (
        ascii_text("push 1\n".as_bytes()),
        split_line("push 1\nfinish 0"),
    );
    let words = LineWords::of_line("push 1").expect(&rt, "no words");
    let spelled = numbers(rt.alloc(), Some("1 20")).expect(&rt, "no memory");
    let spelled = spelled.expect(&rt, "no numbers");
    let named = (table_named("bits"), shape_of_word("fastlast"));
    same(
        &rt,
        &lines,
        &(Some("push 1\n"), Some(("push 1", "finish 0"))),
    );
    same(&rt, &named, &(Some(TableName::Bits), Some(both)));
    let lists = (words.as_slice(), spelled.as_slice());
    same(&rt, &lists, &(["push", "1"].as_slice(), [1, 20].as_slice()));
    assert!(rt; has_empty_word("push  1"));
}

#[test]
fn an_act_is_written(rt: HostRuntime) {
    let load = Act::Load {
        reg: Reg::Value,
        value: 1,
    };
    let mut text = String::new(rt.alloc());
    push_act(&mut text, load).expect(&rt, "no memory");
    same(&rt, &text.as_str(), &"load c 1");
}

/// How many events the script of a text has, or its fault.
fn events<A: Allocator + Clone + Drop>(alloc: A, text: &str) -> Result<usize, Fault> {
    let script = parse(alloc, text.as_bytes())?;
    Ok(script.events.len())
}

/// Whether the allocator serves the reading of a text, which has this number of events, or this fault.
pub(crate) fn is_read<A: Allocator + Clone + Drop>(
    rt: &impl Abort,
    alloc: A,
    text: &str,
    want: Result<usize, Fault>,
) -> bool {
    let told = events(alloc, text);
    if told == Err(Fault::NoMemory) {
        return false;
    }
    same_at(rt, &told, &want, &text);
    true
}
