//! Long names and many words, with answers that are known from how these are made.
//!
//! A call may be refused memory at any time, and would still meet its contract. So each is asked
//! here for more than it might be tempted to keep short.
use crate::runs::{Ran, has_left, run_on};
use espresso::{Line, LineFault, Status};
use pla::Ending;
use std::alloc::Global;
use std::test::Fail;
use test_devices::{Given, Taken};

/// A text of a beginning and 60,000 letters.
fn letters(alloc: Global, begin: &str, end: &str) -> Result<String, Fail> {
    let mut text = String::from_str(alloc, begin)?;
    for _ in 0..60_000 {
        text.push_str("n")?;
    }
    text.push_str(end)?;
    Ok(text)
}

/// What a command on files with a long name leaves, where the second file has a fault.
fn left_by(alloc: Global, name: &str) -> Result<Ran, Fail> {
    let first = Given::new(b".i 1\n.o 1\n1 1\n".to_vec(alloc)?, 3, Ending::End);
    let second = Given::new(b".i 1\n.o 1\nx 1\n".to_vec(alloc)?, 3, Ending::End);
    let output = Taken::new(alloc, 100, 100, false)?;
    run_on(alloc, &["-Dverify", "a", name], first, second, output)
}

#[test]
fn long_names_of_files_are_told(rt: HostRuntime) -> Result<(), Fail> {
    let alloc = rt.alloc();
    let ran = left_by(alloc, letters(alloc, "", "")?.as_str())?;
    let message = letters(alloc, "espresso: ", ":3: bad symbol\n")?;
    assert!(rt; has_left(&ran, b"", message.as_bytes(), Status::Fault));
    Ok(())
}

/// So many words.
fn words(alloc: Global, count: usize) -> Result<Vec<String>, Fail> {
    let mut list = Vec::new(alloc);
    for _ in 0..count {
        list.push(String::from_str(alloc, "-Decho")?)?;
    }
    Ok(list)
}

#[test]
fn many_words_are_refused_for_what_they_are(rt: HostRuntime) -> Result<(), Fail> {
    let words = words(rt.alloc(), 20_000)?;
    assert!(rt; Line::read(rt.alloc(), &words).err() == Some(LineFault::Usage));
    Ok(())
}
