// Reads one capture book from standard input, and prints the table of its verdicts (01, 'Sequences on both sides').
#![tactic(auto)]

use book::INPUT;
use report::put_table;

// (As in the other programs: a crate for a file descriptor would be no plainer.)
const STDIN: i32 = 0;

const STDOUT: i32 = 1;

fn main() {
    let mut input = [0u8; INPUT];
    let mut page = [0u8; 2048];
    let size = io::read_full(STDIN, &mut input);
    let end = put_table(&input[..size], &mut page);
    io::write_all(STDOUT, &page[..end]);
}
