// The words of a line, which are parted by one space.

/// What is still to be read of a line. None behind its last word.
#[derive(Clone, Copy)]
pub struct Words<'a>(Option<&'a str>);

impl<'a> Words<'a> {
    pub fn new(line: &'a str) -> Words<'a> {
        Words(Some(line))
    }

    /// The next word.
    pub fn word(&mut self) -> Option<&'a str> {
        let rest = self.0?;
        match rest.split_once(' ') {
            Some((word, behind)) => {
                self.0 = Some(behind);
                Some(word)
            }
            None => {
                self.0 = None;
                Some(rest)
            }
        }
    }

    /// The next word, as a number.
    pub fn number(&mut self) -> Option<u64> {
        self.word()?.parse().ok()
    }

    /// The next word, as a number below 256.
    pub fn byte(&mut self) -> Option<u8> {
        u8::try_from(self.number()?).ok()
    }

    /// The next word, as a number below 2^32.
    pub fn short_number(&mut self) -> Option<u32> {
        u32::try_from(self.number()?).ok()
    }

    /// All that is left, where that is some text.
    pub fn some_text(&mut self) -> Option<&'a str> {
        let text = self.text();
        if text.is_empty() { None } else { Some(text) }
    }

    /// All that is left.
    pub fn text(&mut self) -> &'a str {
        let text = self.0.unwrap_or("");
        self.0 = None;
        text
    }

    /// Whether nothing is left.
    pub fn are_over(&self) -> bool {
        self.0.is_none()
    }
}
