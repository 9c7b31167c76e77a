// Lists the bundle that stands on standard input: its entries, and the permutation calls that opening them takes.
// Everything that matters is in the library; this reads, calls and prints.
#![tactic(auto)]

use bundle::Fault;
use refusal::Refusal;
use std::fmt::Display;

// The most bytes that are listed.
const MOST: usize = 65_536;

// A write that fails is passed over. The front desk has two such lines for parts of lines; a crate for both would be no plainer.
fn print(rt: &impl Print, line: impl Display + Drop) {
    let _ = println!(rt; "{line}");
}

fn print_fault(rt: &impl Print, fault: Fault) {
    let Fault { refusal, place } = fault;
    print(rt, format_args!("refused {refusal} at {place}"));
}

#[tactic(auto, using(bundle::proofs::Entries::whole_at))]
fn print_entries(rt: &impl Print, bytes: &[u8], entries: usize) {
    let length = bytes.len();
    print(
        rt,
        format_args!("version 1 bytes {length} entries {entries}"),
    );
    let mut place = bundle::FIRST;
    let mut k = 0usize;
    let mut sum = 0;
    // By places and not by an index: each entry says where the next one stands. An iterator would hand on place and entry, and be no plainer.
    while place < bytes.len() {
        let Ok(entry) = bundle::entry_at(bytes, place) else {
            return;
        };
        let bundle::Entry { header, body, next } = entry;
        let calls = bundle::calls_of(header, body);
        print(
            rt,
            format_args!("{k} at {place} header {header} body {body} calls {calls}"),
        );
        sum += calls;
        place = next;
        k += 1;
    }
    print(rt, format_args!("calls {sum}"));
}

fn list(rt: &impl Print, bytes: &[u8]) {
    match bundle::survey(bytes) {
        Ok(entries) => print_entries(rt, bytes, entries),
        Err(fault) => print_fault(rt, fault),
    }
}

fn main(rt: HostRuntime) {
    let mut bytes = [0u8; MOST];
    let mut input = rt.stdin();
    let n = reading::read_full(&mut input, &mut bytes);
    let mut more = [0u8; 1];
    let over = reading::read_full(&mut input, &mut more);
    if over != 0 {
        let fault = Fault {
            refusal: Refusal::NoRoom,
            place: bytes.len(),
        };
        print_fault(&rt, fault);
        return;
    }
    list(&rt, &bytes[..n]);
}
