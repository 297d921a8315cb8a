// The coder over every byte: what each K1 and each K2 decodes to, and how many pairs and records come to each answer.
ghost use Rattle.std.specs.Prelude.{◌<◌};

use basics::refusal::Refusal;
use pair::mark::Mark;
use pair::request::rank;
use pair::{Decoded, Pair, decode, encode};
use std::fmt;
use std::fmt::Write;

// A cell is four wide: the rank, m and the mark, or al.
#[derive(Drop)]
struct Cell(Result<Decoded, Refusal>);

impl fmt::Display for Cell {
    fn fmt<W: fmt::Write>(&self, f: &mut fmt::Formatter<W>) -> fmt::Result {
        match self.0 {
            Ok(Decoded::Usable(p)) => write!(f, "{:>4}", rank(p.code, p.channel)),
            Ok(Decoded::Marked(mark)) => write!(f, "  m{}", mark.number()),
            Ok(Decoded::Alarm) => write!(f, "  al"),
            Err(refusal) => write!(f, "  r{}", refusal.number()),
        }
    }
}

// The byte of the pair that a grid goes through. The other one is that of the idle pair, 00 08.
#[derive(Clone, Copy)]
enum Through {
    K1,
    K2,
}

#[derive(Clone, Copy)]
struct Grid {
    n: u8,
    through: Through,
}

impl Grid {
    fn cell(self, byte: u8) -> Cell {
        match self.through {
            Through::K1 => Cell(decode(self.n, byte, 0x08)),
            Through::K2 => Cell(decode(self.n, 0x00, byte)),
        }
    }

    fn print_row(self, out: &mut impl Write, high: u8) -> fmt::Result
        requires { high < 16 }
    {
        write!(out, "{high:X}x")?;
        for low in 0..16 {
            write!(out, "{}", self.cell(high * 16 + low))?;
        }
        writeln!(out)
    }

    fn print(self, out: &mut impl Write) -> fmt::Result {
        writeln!(out, "{self}: rank, m and the mark, or al for an alarm")?;
        write!(out, "  ")?;
        for low in 0..16u8 {
            write!(out, "  x{low:X}")?;
        }
        writeln!(out)?;
        for high in 0..16 {
            self.print_row(out, high)?;
        }
        writeln!(out)
    }
}

impl fmt::Display for Grid {
    fn fmt<W: fmt::Write>(&self, f: &mut fmt::Formatter<W>) -> fmt::Result {
        let n = self.n;
        match self.through {
            Through::K1 => write!(f, "n = {n}: each K1, with K2 = 08"),
            Through::K2 => write!(f, "n = {n}: each K2, with K1 = 00"),
        }
    }
}

// Of the pairs: how many come to each answer, and how many usable ones encode gives back. A count that reaches the end of
// its type stays there.
#[derive(Default, Drop)]
struct PairCounts {
    refused: u32,
    // By the number of the mark, less 1.
    marked: [u32; 5],
    alarms: u32,
    usable: u32,
    given_back: u32,
}

impl PairCounts {
    fn count(&mut self, n: u8, k1: u8, k2: u8) {
        match decode(n, k1, k2) {
            Ok(Decoded::Usable(p)) => {
                self.usable = self.usable.saturating_add(1);
                if encode(n, p) == Ok([k1, k2]) {
                    self.given_back = self.given_back.saturating_add(1);
                }
            }
            Ok(Decoded::Marked(mark)) => self.count_mark(mark),
            Ok(Decoded::Alarm) => self.alarms = self.alarms.saturating_add(1),
            Err(_) => self.refused = self.refused.saturating_add(1),
        }
    }

    fn count_mark(&mut self, mark: Mark) {
        let at = mark as usize - 1;
        self.marked[at] = self.marked[at].saturating_add(1);
    }

    // (One function for this and the one of records, with a closure, would be no plainer: it is two loops.)
    fn of_all(n: u8) -> PairCounts {
        let mut counts = PairCounts::default();
        for k1 in 0..=255 {
            for k2 in 0..=255 {
                counts.count(n, k1, k2);
            }
        }
        counts
    }
}

impl fmt::Display for PairCounts {
    fn fmt<W: fmt::Write>(&self, f: &mut fmt::Formatter<W>) -> fmt::Result {
        write!(f, "{}", self.refused)?;
        for count in &self.marked {
            write!(f, " {count}")?;
        }
        write!(f, " {} {} {}", self.alarms, self.usable, self.given_back)
    }
}

// Of the records: how many come to each answer, and the sum of the bytes.
#[derive(Default, Drop)]
struct RecordCounts {
    settings_refused: u32,
    record_refused: u32,
    encoded: u32,
    sum: u32,
}

impl RecordCounts {
    fn count(&mut self, n: u8, p: Pair) {
        match encode(n, p) {
            Ok(bytes) => {
                self.encoded = self.encoded.saturating_add(1);
                self.sum = self
                    .sum
                    .saturating_add(u32::from(u16::from_be_bytes(bytes)));
            }
            Err(Refusal::Sections) => {
                self.settings_refused = self.settings_refused.saturating_add(1);
            }
            Err(_) => self.record_refused = self.record_refused.saturating_add(1),
        }
    }

    fn count_request(&mut self, n: u8, code: u8, channel: u8) {
        for bridged in 0..18 {
            for remote in [false, true] {
                self.count(
                    n,
                    Pair {
                        code,
                        channel,
                        bridged,
                        remote,
                    },
                );
            }
        }
    }

    fn of_all(n: u8) -> RecordCounts {
        let mut counts = RecordCounts::default();
        for code in 0..18 {
            for channel in 0..18 {
                counts.count_request(n, code, channel);
            }
        }
        counts
    }
}

impl fmt::Display for RecordCounts {
    fn fmt<W: fmt::Write>(&self, f: &mut fmt::Formatter<W>) -> fmt::Result {
        write!(
            f,
            "{} {} {} {}",
            self.settings_refused, self.record_refused, self.encoded, self.sum
        )
    }
}

fn print_pairs(out: &mut impl Write) -> fmt::Result {
    writeln!(
        out,
        "n, then of all 65536 pairs: refused, marks 1 to 5, alarms, usable, given back by encode"
    )?;
    for n in 0..16 {
        writeln!(out, "{n} {}", PairCounts::of_all(n))?;
    }
    writeln!(out)
}

fn print_records(out: &mut impl Write) -> fmt::Result {
    writeln!(
        out,
        "n, then of the 11664 records with code, channel and bridged 0 to 17, remote 0 and 1: refused 1, refused 10, encoded, sum of the bytes"
    )?;
    for n in 0..16 {
        writeln!(out, "{n} {}", RecordCounts::of_all(n))?;
    }
    writeln!(out)
}

fn sum_of_ranks() -> u32 {
    let mut sum: u32 = 0;
    for code in 0..=255 {
        for channel in 0..=255 {
            sum = sum.saturating_add(u32::from(rank(code, channel)));
        }
    }
    sum
}

pub(crate) fn print_tables(out: &mut impl Write) -> fmt::Result {
    for n in [2, 14] {
        for through in [Through::K1, Through::K2] {
            Grid { n, through }.print(out)?;
        }
    }
    print_pairs(out)?;
    print_records(out)?;
    writeln!(
        out,
        "sum of the ranks over all 65536 codes and channels: {}",
        sum_of_ranks()
    )
}
