// The words of a cause as a line has them (02, a).
use controller::command::{Command, read};
use page::Page;

// Sections 0 to n in rising order: a word has two bits for each, section 0 lowest.
#[derive(Clone, Copy)]
pub(crate) struct Conditions {
    pub n: u8,
    pub word: u32,
}

impl Conditions {
    pub(crate) fn put(self, page: &mut Page<'_>) {
        // (A number's digits, the lowest first, are in no slice to go over.)
        let mut rest = self.word;
        for _c in 0..=self.n {
            page.put_number(u64::from(rest % 4));
            rest /= 4;
        }
    }
}

// The command that the word of a cause stands for, which is the upper byte, its channel the lower. No word of a cause is refused
// as a command (refusals 6 and 7).
#[derive(Clone, Copy)]
pub(crate) struct Given {
    pub n: u8,
    pub word: u16,
}

fn put_switch(page: &mut Page<'_>, word: &[u8], channel: u8) {
    page.put(word);
    page.put_number(u64::from(channel));
}

impl Given {
    pub(crate) fn put(self, page: &mut Page<'_>) {
        let [number, channel] = self.word.to_be_bytes();
        match read(self.n, number, channel) {
            Ok(Some(Command::Clear)) => page.put(b"clear"),
            Ok(Some(Command::Lockout)) => page.put(b"LO"),
            Ok(Some(Command::Forced(c))) => put_switch(page, b"FS ", c),
            Ok(Some(Command::Manual(c))) => put_switch(page, b"MS ", c),
            _ => page.put(b"none"),
        }
    }
}

#[cfg(test)]
mod tests {
    use super::*;

    // The words of a cause as they are printed (02, a).
    #[test]
    fn words_are_printed(rt: HostRuntime) {
        for (word, text) in [
            (0x0000, "none"),
            (0x0100, "clear"),
            (0x0200, "LO"),
            (0x0301, "FS 1"),
            (0x040E, "MS 14"),
        ] {
            let mut bytes = [0; 8];
            let mut page = Page::new(&mut bytes);
            Given { n: 14, word }.put(&mut page);
            assert_eq!(rt; page.text(), text.as_bytes());
        }
        let mut bytes = [0; 8];
        let mut page = Page::new(&mut bytes);
        let conditions = Conditions {
            n: 3,
            word: 0b10_00_01_00,
        };
        conditions.put(&mut page);
        assert_eq!(rt; page.text(), b"0102".as_slice());
    }
}
