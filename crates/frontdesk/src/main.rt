// The front desk: the office seals a bundle, the desk surveys and opens it, what is damaged is refused, and both go on by turns, told
// line by line. Key, label and members are made up. Everything that matters is in the library; this calls and prints.
#![tactic(auto)]

mod desk; // desk.rt: the bundle surveyed and opened, and what is refused
mod exchange; // exchange.rt: pairs outside the bundle, by running sessions
mod lines; // lines.rt: what is printed
mod office; // office.rt: the bundle sealed

use std::fs::{File, Files};
use std::io::Write;

// What a lent output holds beforehand, and how long it is.
const DOT: u8 = b'.';

const ROOM: usize = 256;

// Keeps a bundle in a new file `bundle`, for the lister. A file of that name stands as it is.
fn keep(rt: &impl Files, bytes: &[u8]) {
    let opened = File::options()
        .write(true)
        .create_new(true)
        .open(rt, "bundle");
    let Ok(mut file) = opened else {
        return;
    };
    let _ = file.write_all(bytes);
}

// A bundle's way from the office to the desk. Two entries have one header, one has a body of two blocks, and one has none.
fn main(rt: HostRuntime) {
    let key = b"a key of thirty-two bytes, fresh";
    let label = b"reef hall, week 46";
    let mut buffer = [0u8; 512];
    let zero = office::left(office::start(&rt, key, label, &mut buffer));
    let one = office::left(office::add(
        &rt,
        zero,
        b"member 17",
        b"season pass, two adults",
        &mut buffer,
    ));
    let two = office::left(office::add(&rt, one, b"member 17", b"locker 12", &mut buffer));
    let three = office::left(office::add(
        &rt,
        two,
        b"member 204",
        b"annual pass, two adults, a child; asked for a large-print map, for the step-free way to the reef hall, and for word of the turtle talks in the spring.",
        &mut buffer,
    ));
    let four = office::left(office::add(&rt, three, b"member 5", b"", &mut buffer));
    let bytes = office::bundle_in(&buffer);
    keep(&rt, bytes);
    let Some(entries) = desk::survey(&rt, bytes) else {
        return;
    };
    let opened = desk::open(&rt, key, label, bytes, entries);
    desk::refuse(&rt, key, buffer);
    exchange::by_turns(&rt, opened, four);
}
