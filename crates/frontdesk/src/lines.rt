// The lines that the front desk prints. These functions only print: they answer nothing, and write to no lent buffer.
use crate::{DOT, ROOM};
use bundle::Fault;
use refusal::Refusal;
use std::fmt::Display;

// How much of a body is shown.
const SHOWN: usize = 32;

const COLUMNS: &str = "  entry  place  header               body  calls";

// A write that fails is passed over. The lister has two such lines for whole lines; a crate for both would be no plainer.
fn print(rt: &impl Print, text: impl Display + Drop) {
    let _ = rt.print(text);
}

// Headers and bodies are bytes, and printed as they are.
fn print_bytes(rt: &impl Print, bytes: &[u8]) {
    let _ = rt.write_all(bytes);
}

// A header at the left of a column of 18, the longest.
fn print_header(rt: &impl Print, header: &[u8]) {
    print_bytes(rt, header);
    print(
        rt,
        format_args!("{:1$}", "", 18usize.saturating_sub(header.len())),
    );
}

// What the lines of entries and of pairs share.
fn print_lengths(rt: &impl Print, header: &[u8], body: usize, calls: u64) {
    print(rt, "  ");
    print_header(rt, header);
    print(rt, format_args!("{body:>7}{calls:>7}  "));
}

// An entry's line, up to what came of it.
pub fn print_entry(
    rt: &impl Print,
    entry: u64,
    place: usize,
    header: &[u8],
    body: usize,
    calls: u64,
) {
    print(rt, format_args!("{entry:>7}{place:>7}"));
    print_lengths(rt, header, body, calls);
}

// The same of a pair outside a bundle.
pub fn print_pair(rt: &impl Print, pair: u64, header: &[u8], body: usize, calls: u64) {
    print(rt, format_args!("{pair:>7}"));
    print_lengths(rt, header, body, calls);
}

// What came of an entry: sealed, ..
pub fn print_sealed(rt: &impl Print, refusal: Option<Refusal>) {
    match refusal {
        None => print(rt, "sealed\n"),
        Some(refusal) => print(rt, format_args!("refused {refusal}\n")),
    }
}

// .. opened, or refused.
pub fn print_outcome(rt: &impl Print, refusal: Option<Refusal>, out: &[u8], body: usize) {
    match refusal {
        None => print_body(rt, out, body),
        Some(refusal) => print_refused(rt, refusal, out == [DOT; ROOM].as_slice()),
    }
}

// The first bytes of a body.
fn print_body(rt: &impl Print, out: &[u8], body: usize) {
    print(rt, "opened: ");
    if body == 0 {
        print(rt, "an empty body");
    } else if let Some(shown) = out.get(..body.min(SHOWN)) {
        print_bytes(rt, shown);
    }
    if SHOWN < body {
        print(rt, " ..");
    }
    print(rt, "\n");
}

// A refusal, and whether the lent output is as it was.
fn print_refused(rt: &impl Print, refusal: Refusal, is_unchanged: bool) {
    let buffer = if is_unchanged {
        "and the lent buffer is unchanged"
    } else {
        "AND THE LENT BUFFER IS CHANGED"
    };
    print(rt, format_args!("refused {refusal}, {buffer}\n"));
}

pub fn print_no_entry(rt: &impl Print, place: usize) {
    print(rt, format_args!("  no entry stands at {place}\n"));
}

pub fn print_sealing(rt: &impl Print, key: usize) {
    print(
        rt,
        format_args!(
            "The office seals a bundle under a key of {key} bytes, which take the first call.\n{COLUMNS}\n"
        ),
    );
}

pub fn print_survey(rt: &impl Print, bytes: usize, entries: usize) {
    print(
        rt,
        format_args!("\nThe desk surveys it: version 1, {bytes} bytes, {entries} entries.\n"),
    );
}

pub fn print_no_bundle(rt: &impl Print, fault: Fault) {
    let Fault { refusal, place } = fault;
    print(
        rt,
        format_args!("\nThe desk surveys it: refused {refusal} at {place}.\n"),
    );
}

pub fn print_opening(rt: &impl Print) {
    print(
        rt,
        format_args!("\nThe desk opens it with the same key, entry zero first.\n{COLUMNS}\n"),
    );
}

pub fn print_label(rt: &impl Print) {
    print(
        rt,
        format_args!("That is the label expected. The others follow in turn.\n{COLUMNS}\n"),
    );
}

pub fn print_other_label(rt: &impl Print) {
    print(rt, "That is another label: the bundle is not opened.\n");
}

pub fn print_open(rt: &impl Print, calls: u64) {
    print(
        rt,
        format_args!("Each entry has opened, so the bundle is open, after {calls} calls.\n"),
    );
}

pub fn print_again(rt: &impl Print) {
    print(
        rt,
        format_args!("\nA new session opens entries 0 and 1 again.\n{COLUMNS}\n"),
    );
}

pub fn print_damage(rt: &impl Print) {
    print(rt, "A byte of entry 2's tag is changed.\n");
}

pub fn print_shift(rt: &impl Print) {
    print(
        rt,
        "Entry 2 is skipped, so that entry 3 would open as number 2: the old module's fault.\n",
    );
}

pub fn print_mended(rt: &impl Print) {
    print(
        rt,
        "Entry 2 is put right, and the session is still the one that entry 1 left.\n",
    );
}

pub fn print_receipt(rt: &impl Print) {
    print(
        rt,
        "\nBoth sides have the same history, so their sessions run on: the desk seals a receipt, and the office opens it.\n   pair  header               body  calls\n",
    );
}

pub fn print_answer(rt: &impl Print) {
    print(rt, "The office answers, and the desk opens that.\n");
}
