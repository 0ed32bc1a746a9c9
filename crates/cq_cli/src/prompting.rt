//! A reader at a terminal.

use std::io::{self, Read, Write};

/// What is told before the first line.
const GREETING: &[u8] =
    b"board: lines of a script, or questions, which `help` lists; `quit` ends\n";

const PROMPT: &[u8] = b"> ";

/// A reader that prompts before each read, if it has where to. The first prompt comes after a greeting. A prompt that cannot be
/// written is left out.
#[derive(Drop)]
pub(crate) struct Prompting<R, P> {
    input: R,
    prompts: Option<P>,
    is_greeted: bool,
}

impl<R, P> Prompting<R, P> {
    /// Nothing was read yet.
    pub(crate) fn new(input: R, prompts: Option<P>) -> Self {
        Prompting {
            input,
            prompts,
            is_greeted: false,
        }
    }
}

impl<R, P: Write> Prompting<R, P> {
    fn prompt(&mut self) {
        if let Some(prompts) = &mut self.prompts {
            if !self.is_greeted {
                let _ = prompts.write_all(GREETING);
            }
            let _ = prompts.write_all(PROMPT);
        }
        self.is_greeted = true;
    }
}

impl<R: Read, P: Write> Read for Prompting<R, P> {
    fn read(&mut self, buf: &mut [u8]) -> io::Result<usize> {
        self.prompt();
        self.input.read(buf)
    }
}
