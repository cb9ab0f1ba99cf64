// An input, as it is asked.

use crate::script::{Asking, Times};
use crate::text::push_text;
use std::alloc::{AllocError, Global};

/// The bytes of an input, and the header lines of the next request.
#[derive(Drop)]
pub struct Input {
    pub bytes: Vec<u8>,
    lines: String,
}

impl Input {
    pub fn new(alloc: Global) -> Input {
        Input {
            bytes: Vec::new(alloc),
            lines: String::new(alloc),
        }
    }

    /// The next request has this header line.
    pub fn add_line(&mut self, line: &str) -> Result<(), AllocError> {
        self.lines.push_str(line)?;
        self.lines.push_str("\r\n")
    }

    /// Goes on with what is asked so often.
    pub fn ask(&mut self, times: Times, asking: Asking<'_>) -> Result<(), AllocError> {
        for i in 0..times.count {
            let repetition = times.first.map(|first| u64::from(first) + u64::from(i));
            self.ask_once(asking, repetition)?;
        }
        if matches!(asking, Asking::Request { .. }) {
            self.lines.clear();
        }
        Ok(())
    }

    fn ask_once(&mut self, asking: Asking<'_>, repetition: Option<u64>) -> Result<(), AllocError> {
        match asking {
            Asking::Request {
                method,
                target,
                body,
            } => {
                push_text(&mut self.bytes, method, repetition)?;
                push_text(&mut self.bytes, " ", repetition)?;
                push_text(&mut self.bytes, target, repetition)?;
                self.push_rest(body, repetition)
            }
            Asking::Bytes(text) => push_text(&mut self.bytes, text, repetition),
        }
    }

    // What stands in a request behind its target.
    fn push_rest(&mut self, body: &str, repetition: Option<u64>) -> Result<(), AllocError> {
        let alloc = *self.bytes.allocator();
        let mut content = Vec::new(alloc);
        push_text(&mut content, body, repetition)?;
        let lines = self.lines.as_str();
        let length = content.len();
        let head = format!(in alloc;
            " HTTP/1.1\r\nHost: d\r\n{lines}Content-Length: {length}\r\n\r\n"
        )?;
        self.bytes.extend_from_slice(head.as_bytes())?;
        self.bytes.extend_from_slice(&content)
    }
}
