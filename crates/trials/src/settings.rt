// Settings of the last entry: each n from 0 to 16, with no section of high priority and with each one bit of the mask.
use crate::answers::number;
use crate::drafts::PAPER;
use crate::writer::refusal_with;
use basics::put_two;
use basics::refusal::Refusal;
use book::read;
use std::fmt;
use std::fmt::Write;

const MASKS: [u16; 17] = [
    0, 1, 2, 4, 8, 16, 32, 64, 128, 256, 512, 1024, 2048, 4096, 8192, 16384, 32768,
];

// The refusal at each n and mask.
fn print_refusals<W: Write, F: FnMut(u8, u16) -> Option<Refusal>>(
    to: &mut W,
    mut refusal_at: F,
) -> fmt::Result
    requires { F.IsAlwaysCallable refusal_at }
{
    for n in 0..=16 {
        write!(to, "{n}")?;
        for mask in MASKS {
            write!(to, " {}", number(refusal_at(n, mask)))?;
        }
        writeln!(to)?;
    }
    Ok(())
}

fn read_with(n: u8, mask: u16) -> Option<Refusal> {
    let mut book = *PAPER;
    book[14] = n;
    put_two(&mut book, 16, mask);
    read(&book).err()
}

pub(crate) fn print_reader<W: Write>(to: &mut W) -> fmt::Result {
    writeln!(to, "reader settings")?;
    print_refusals(to, read_with)
}

pub(crate) fn print_writer<W: Write>(to: &mut W, bodies: &[u8], out: &mut [u8]) -> fmt::Result {
    writeln!(to, "writer settings")?;
    print_refusals(to, |n, mask| refusal_with(n, mask, bodies, out))
}
