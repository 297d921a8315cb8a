// The rows of a capture that repeat the row before them. On a line that is at rest all do, so bytes alone are compared, and many
// at a time.
#![tactic(auto)]

ghost use Rattle.std.specs.Prelude.{◌≤◌, length, ◌≡◌};
ghost use Rattle.std.specs.Str.{bytes_eq};
ghost use Rattle.repeats.specs.Repeats.{leading, rows_in, repeated};

// The row before stands four bytes back.
const BACK: usize = 4;

const ROW: usize = 4;

// Sixteen rows.
const BLOCK: usize = 64;

// It looks at every byte, also behind one that differs: a loop that never leaves early is compiled to few wide comparisons.
fn alike<const N: usize>(piece: &[u8; N], other: &[u8; N]) -> bool
    ensures { result ≡ bytes_eq piece.now other.now }
{
    let mut all = true;
    for (a, b) in piece.iter().zip(other) {
        all &= *a == *b;
    }
    all
}

// How many pieces, from the first on, are this one. (`position` was tried: the proof that it finds the first other one did not close.)
fn leading<const N: usize>(piece: &[u8; N], pieces: &[[u8; N]]) -> usize
    ensures value { result ≡ leading piece.now pieces.now }
    ensures few { result ≤ length pieces.now }
{
    for (number, next) in pieces.iter().enumerate() {
        if !alike(piece, next) {
            return number;
        }
    }
    pieces.len()
}

// How many rows, from the first on, are this one: those of the first block, then the blocks that are that one, then rows again.
fn run_length(row: &[u8; ROW], bytes: &[u8]) -> usize
    ensures { result ≡ leading row.now (rows_in bytes.now) }
{
    let Some((block, behind)) = bytes.split_first_chunk::<BLOCK>() else {
        return leading(row, bytes.as_chunks::<ROW>().0);
    };
    let rows = leading(row, block.as_chunks::<ROW>().0);
    if rows < BLOCK / ROW {
        return rows;
    }
    let blocks = leading(block, behind.as_chunks::<BLOCK>().0);
    let last = leading(row, behind[blocks * BLOCK..].as_chunks::<ROW>().0);
    rows + blocks * (BLOCK / ROW) + last
}

// How many rows from a place on equal the row before it.
pub fn repeated(capture: &[u8], at: usize) -> usize
    ensures { result ≡ repeated capture.now at }
{
    if at < BACK || capture.len() < at {
        return 0;
    }
    let Some(row) = capture[at - BACK..].first_chunk::<ROW>() else {
        return 0;
    };
    run_length(row, &capture[at..])
}
