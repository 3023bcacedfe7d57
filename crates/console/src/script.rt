// A script: the stack that it chooses, its calls as one list, and its commands in order.
use crate::command::call_of;
use crate::stacks::Stack;
use crate::words::words_of;
use crate::wrong::{Complaint, Wrong};
use history::Call;
use std::alloc::{AllocError, Global};

/// A script: `lines` has a complaint for a command that is wrong, and `Ok` for the next call of the list.
#[derive(Drop)]
pub(crate) struct Script {
    pub(crate) stack: Stack,
    pub(crate) calls: Vec<Call>,
    // Beside the calls, which go to `send_all` as one list of their own, so that its promise holds of the whole script.
    pub(crate) lines: Vec<Result<(), Complaint>>,
}

/// The text of the input. Commands are ASCII, so any other byte stands in a comment or spoils its line all the same.
pub(crate) fn text_of(heap: Global, input: &[u8]) -> Result<String, AllocError> {
    input
        .iter()
        .map(|b| if b.is_ascii() { char::from(*b) } else { '?' })
        .collect(heap)
}

/// Whether a line is neither blank nor begins with `#`.
fn is_command(line: &str) -> bool {
    !line.starts_with('#') && !line.trim().is_empty()
}

impl Script {
    /// Reads a script. Blank lines and lines that begin with `#` are passed over.
    pub(crate) fn read(heap: Global, text: &str) -> Result<Script, AllocError> {
        let mut script = Script {
            stack: Stack::default(),
            calls: Vec::new(heap),
            lines: Vec::new(heap),
        };
        let mut commands = (1..).zip(text.lines()).filter(|(_, line)| is_command(line));
        if let Some((number, line)) = commands.next() {
            script.take_first(heap, number, &words_of(heap, line)?)?;
        }
        for (number, line) in commands {
            script.take(heap, number, &words_of(heap, line)?)?;
        }
        Ok(script)
    }

    /// Takes the first command, which may choose the stack.
    fn take_first(
        &mut self,
        heap: Global,
        number: usize,
        words: &[&str],
    ) -> Result<(), AllocError> {
        let stack = match words {
            ["stack", name] => name.parse(),
            ["stack", ..] => Err(Wrong::Words),
            _ => return self.take(heap, number, words),
        };
        match stack {
            Ok(stack) => self.stack = stack,
            Err(wrong) => self.lines.push(Err(Complaint { number, wrong }))?,
        }
        Ok(())
    }

    /// Takes a command: a call, or a complaint.
    fn take(&mut self, heap: Global, number: usize, words: &[&str]) -> Result<(), AllocError> {
        match call_of(heap, words) {
            Ok(call) => {
                self.calls.push(call)?;
                self.lines.push(Ok(()))?;
            }
            Err(problem) => self.lines.push(Err(problem.at(number)?))?,
        }
        Ok(())
    }
}
