// The words of an answer: numbers with one space between, texts, `none`, or `refused` and a number. The line is ended by `main`.
use answer::Refusal;
use std::fmt::Display;
use std::io::{Stdout, Write};

// Writes a text; where that fails, nobody is left to be told.
pub(crate) fn text(stdout: Stdout, bytes: &[u8]) {
    let mut to = stdout;
    let _ = to.write_all(bytes);
}

pub(crate) fn space(stdout: Stdout) {
    text(stdout, b" ");
}

// A number.
pub(crate) fn number<D: Display + Drop>(stdout: Stdout, n: D) {
    let _ = stdout.print(n);
}

// A number behind another word of the line.
pub(crate) fn next<D: Display + Drop>(stdout: Stdout, n: D) {
    space(stdout);
    number(stdout, n);
}

pub(crate) fn four(stdout: Stdout, first: u16, second: u16, third: u16, fourth: u16) {
    number(stdout, first);
    next(stdout, second);
    next(stdout, third);
    next(stdout, fourth);
}

// What is answered, printed by `put`, or the refusal.
pub(crate) fn answer<T, F: FnOnce(Stdout, T)>(stdout: Stdout, answer: Result<T, Refusal>, put: F)
    requires { F.IsAlwaysCallable put }
{
    match answer {
        Ok(value) => put(stdout, value),
        Err(question) => refusal(stdout, question),
    }
}

// The number of the question with the answer no.
fn refusal(stdout: Stdout, question: Refusal) {
    text(stdout, b"refused ");
    number(stdout, question.number());
}

// A number behind another word of the line, or a refusal.
pub(crate) fn next_answer(stdout: Stdout, found: Result<u16, Refusal>) {
    space(stdout);
    answer(stdout, found, number);
}

// What is found, printed by `put`, or `none`.
pub(crate) fn found<T, F: FnOnce(Stdout, T)>(stdout: Stdout, found: Option<T>, put: F)
    requires { F.IsAlwaysCallable put }
{
    match found {
        Some(value) => put(stdout, value),
        None => text(stdout, b"none"),
    }
}

// What a call writes to the front of a slice, printed by `put`, or the refusal to write it.
pub(crate) fn filled<T, W, F>(stdout: Stdout, out: &mut [T], write: W, put: F)
where
    W: FnOnce(&mut [T]) -> Result<usize, Refusal>,
    F: FnOnce(Stdout, &[T]),
    requires writes { W.IsAlwaysCallable write }
    requires puts { F.IsAlwaysCallable put }
{
    match write(out) {
        Ok(count) => {
            if count <= out.len() {
                put(stdout, &out[..count]);
            }
        }
        Err(question) => refusal(stdout, question),
    }
}

// Numbers with a space between.
pub(crate) fn joined<D: Display + Copy>(stdout: Stdout, numbers: &[D]) {
    for (index, n) in numbers.iter().enumerate() {
        if 0 < index {
            space(stdout);
        }
        number(stdout, *n);
    }
}

// The numbers of a list, or `-` where it has none.
pub(crate) fn list<D: Display + Copy>(stdout: Stdout, numbers: &[D]) {
    match numbers {
        [] => text(stdout, b"-"),
        _ => joined(stdout, numbers),
    }
}

// Lines, which have their own ends; the last is ended by `main`.
pub(crate) fn lines(stdout: Stdout, bytes: &[u8]) {
    if let [all @ .., _] = bytes {
        text(stdout, all);
    }
}
