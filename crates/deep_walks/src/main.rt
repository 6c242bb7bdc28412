// The deepest walks, run to their ends: 65,534 self calls down from the genesis of 65535 and 1, and up from 1, 65535, 4, 0.
//
// Each line is what one entry point of `mos_walks` or `mos_listings` answers: the four numbers of a pattern, a count, `nothing`, or `refused`.
#![tactic(auto)]

use answer::Refusal;
use mos::Mos;
use std::io::{Stdout, Write};

// Writes a text; where that fails, nobody is left to be told.
fn put(stdout: Stdout, text: &[u8]) {
    let mut to = stdout;
    let _ = to.write_all(text);
}

// A number of at most 65,535 in five digits, and a space.
fn put_number(stdout: Stdout, n: u16) {
    let text = [
        (n / 10000 % 10) as u8 + 48,
        (n / 1000 % 10) as u8 + 48,
        (n / 100 % 10) as u8 + 48,
        (n / 10 % 10) as u8 + 48,
        (n % 10) as u8 + 48,
        b' ',
    ];
    put(stdout, &text);
}

fn put_pattern(stdout: Stdout, m: Mos) {
    put_number(stdout, m.num_primary_steps);
    put_number(stdout, m.num_secondary_steps);
    put_number(stdout, m.primary_step);
    put_number(stdout, m.secondary_step);
    put(stdout, b"\n");
}

fn put_walked(stdout: Stdout, answer: Result<Option<Mos>, Refusal>) {
    match answer {
        Ok(Some(m)) => put_pattern(stdout, m),
        Ok(None) => {
            put(stdout, b"nothing\n");
        }
        Err(_) => {
            put(stdout, b"refused\n");
        }
    }
}

fn put_made(stdout: Stdout, answer: Result<Mos, Refusal>) {
    match answer {
        Ok(m) => put_pattern(stdout, m),
        Err(_) => {
            put(stdout, b"refused\n");
        }
    }
}

// A count of numbers, four to a pattern, as the count of patterns.
fn put_count(stdout: Stdout, answer: Result<usize, Refusal>) {
    match answer {
        Ok(n) => {
            let patterns = n / 4;
            if patterns <= 65535 {
                put_number(stdout, patterns as u16);
                put(stdout, b"patterns\n");
            }
        }
        Err(_) => {
            put(stdout, b"refused\n");
        }
    }
}

// The last pattern of a listing.
fn put_last(stdout: Stdout, out: &[u16]) {
    if 262136 <= out.len() {
        put_number(stdout, out[262132]);
        put_number(stdout, out[262133]);
        put_number(stdout, out[262134]);
        put_number(stdout, out[262135]);
        put(stdout, b"\n");
    }
}

fn walk_down(stdout: Stdout, m: Mos, out: &mut [u16]) {
    put_walked(stdout, mos_walks::find_child(m, 65535));
    put_walked(stdout, mos_walks::find_child(m, 65536));
    put_walked(stdout, mos_walks::nth_child(m, 65533));
    put_walked(stdout, mos_walks::nth_child(m, 65534));
    put_count(stdout, mos_listings::children_len(m));
    put_count(stdout, mos_listings::children(m, out));
    put_last(stdout, out);
}

fn walk_up(stdout: Stdout, m: Mos, out: &mut [u16]) {
    put_made(stdout, mos_walks::genesis(m));
    put_walked(stdout, mos_walks::nth_parent(m, 65534));
    put_walked(stdout, mos_walks::nth_parent(m, 65535));
    put_count(stdout, mos_listings::parents_len(m));
    put_count(stdout, mos_listings::parents(m, out));
}

fn down(stdout: Stdout, out: &mut [u16]) {
    match Mos::new_genesis(65535, 1) {
        Ok(m) => walk_down(stdout, m, out),
        Err(_) => {
            put(stdout, b"refused\n");
        }
    }
}

fn up(stdout: Stdout, out: &mut [u16]) {
    match Mos::new(1, 65535, 4, 0) {
        Ok(m) => walk_up(stdout, m, out),
        Err(_) => {
            put(stdout, b"refused\n");
        }
    }
}

fn both(stdout: Stdout, out: &mut [u16]) {
    down(stdout, out);
    up(stdout, out);
}

fn main(rt: HostRuntime) {
    let mut out: [u16; 262140] = [0; 262140];
    both(rt.stdout(), &mut out);
}
